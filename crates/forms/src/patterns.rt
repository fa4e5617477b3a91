// Patterns of branches.
ghost use Rattle.std.specs.Prelude.{◌≡◌, ◌≤◌, length};
ghost use Rattle.forms.specs.Patterns.{wildcard_kind, part_kind, GoesParts, GoesPattern, PassedAll, Patterned};
ghost use Rattle.grammar.specs.Reading.{Tally, read_parts, read_constructor_pattern, read_pattern};
ghost use Rattle.grammar.specs.Sexps.{Sexp, Atoms};
ghost use Rattle.grammar.specs.Streams.{stream};
ghost use Rattle.text.specs.Tokens.{Lexed, lexed_from};

use super::atoms::wrong;
use super::names::name_at;
use super::sight::{Look, closing_at, look_at};
use text::{Keyword, Refused, TokenKind};

// A pattern's place, and the place behind it.
#[derive(Clone, Copy, PartialEq, Eq)]
pub struct PatternAt {
    pub place: usize,
    pub after: usize,
}

fn is_wildcard(kind: TokenKind) -> bool
    ensures { result ≡ wildcard_kind kind }
{
    kind == TokenKind::Keyword(Keyword::Wildcard)
}

// Whether a token can stand for one field: a name, or a wildcard.
fn is_part(kind: TokenKind) -> bool
    ensures { result ≡ part_kind kind }
{
    kind == TokenKind::Name || is_wildcard(kind)
}

// The parts for the fields, up to the bracket that closes the pattern: the place behind it.
fn parts_at(text: &[u8], place: usize) -> Result<usize, Refused>
    ensures goes { GoesParts text.now place result }
    ensures told { PassedAll read_parts text.now place result }
{
    // Tokens are followed: the place is where the last one ended, and no index.
    let mut at = place;
    'parts: loop {
        match look_at(text, at) {
            Look::Atom(kind, here, after) => {
                if !is_part(kind) {
                    return Err(wrong(here));
                }
                at = after;
            }
            Look::Open(here, _) => return Err(wrong(here)),
            Look::Close(_, after) => return Ok(after),
            Look::End => return Err(wrong(at)),
        }
    }
}

// A constructor and its parts, behind the bracket that stands at a place.
fn constructor_at(text: &[u8], place: usize, inside: usize) -> Result<usize, Refused>
    ensures goes { GoesParts text.now inside result }
    ensures told { PassedAll (read_constructor_pattern place) text.now inside result }
{
    if closing_at(text, inside).is_some() {
        return Err(wrong(place));
    }
    let name = name_at(text, inside)?;
    parts_at(text, name.after)
}

pub(crate) fn pattern_at(text: &[u8], place: usize) -> Result<PatternAt, Refused>
    ensures goes { GoesPattern text.now place result }
    ensures told { (s : Sexp) (rest : Lexed) (n : Tally) → lexed_from text.now place ≡ stream s rest → Atoms s → Patterned text.now rest (read_pattern s n) result }
{
    match look_at(text, place) {
        Look::Atom(kind, place, after) if is_wildcard(kind) => Ok(PatternAt { place, after }),
        Look::Open(place, inside) => {
            let after = constructor_at(text, place, inside)?;
            Ok(PatternAt { place, after })
        }
        Look::Atom(_, at, _) | Look::Close(at, _) => Err(wrong(at)),
        Look::End => Err(wrong(place)),
    }
}
