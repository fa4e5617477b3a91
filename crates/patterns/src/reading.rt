// Patterns, token by token.
ghost use Rattle.std.specs.Prelude.{◌≡◌, ◌≤◌, List, length};
ghost use Rattle.grammar.specs.Trees.{Ident, PatternPart, Pattern, constructor};
ghost use Rattle.layout.specs.Spelling.{Shows};
ghost use Rattle.patterns.specs.Parts.{PartsAt, HeadAt, IsHead, Onward, IsPart};
ghost use Rattle.text.specs.declared.token.TokenKind.TheVariants.{Name};
ghost use Rattle.forms.specs.Looks.{Seen};

use super::head::Head;
use super::part::Part;
use forms::{Look, NameAt, look_at};
use text::TokenKind;

// The pattern at a place whose constructor's name stands next.
fn constructor_at(text: &[u8], place: usize, inside: usize) -> Option<Head>
    ensures { (c : Ident) (xs : List PatternPart) → length text.now ≤ 65535 → HeadAt text.now inside c xs → IsHead text.now (constructor place c xs) result }
{
    match look_at(text, inside) {
        Look::Atom(_, at, after) => Some(Head {
            place,
            name: NameAt { place: at, after }.word(),
            inside: after,
        }),
        _ => None,
    }
}

// The pattern that stands at a place: a constructor's, or none for a wildcard.
pub fn head_at(text: &[u8], place: usize) -> Option<Head>
    ensures { (x : Pattern) → length text.now ≤ 65535 → Shows text.now place x → IsHead text.now x result }
{
    match look_at(text, place) {
        Look::Open(at, inside) => constructor_at(text, at, inside),
        _ => None,
    }
}

// What stands for the next field of a pattern, from a place among its parts on; none at its end.
pub fn next_part(text: &[u8], place: usize) -> Option<Part>
    ensures forward { Onward text.now place result }
    ensures part { (xs : List PatternPart) → length text.now ≤ 65535 → PartsAt text.now place xs → IsPart text.now xs result }
{
    match look_at(text, place) {
        Look::Atom(kind, at, after) if kind == TokenKind::Name => Some(Part {
            name: Some(NameAt { place: at, after }.word()),
            after,
        }),
        Look::Atom(_, _, after) => Some(Part { name: None, after }),
        _ => None,
    }
}
