// How many parts a list has, and the reserved word that it begins with.
ghost use Rattle.std.specs.Prelude.{◌≡◌, ◌+◌, min, ◌≤◌};
ghost use Rattle.forms.specs.Surveys.{here, parts_of, head_word};
ghost use Rattle.text.specs.Tokens.{lexed_from};

use super::sight::{Look, look_at};
use text::{Keyword, TokenKind};

// What decides the form of a list: how many parts it has, where seven stands for more, and the reserved word at its head.
#[derive(Clone, Copy, PartialEq, Eq)]
pub struct Survey {
    pub parts: usize,
    pub head: Option<Keyword>,
}

// The reserved word that stands next, if one does.
pub(crate) fn head_at(text: &[u8], place: usize) -> Option<Keyword>
    ensures { result ≡ head_word (lexed_from text.now place) }
{
    match look_at(text, place) {
        Look::Atom(TokenKind::Keyword(head), _, _) => Some(head),
        _ => None,
    }
}

// The number of parts with one more, unless a bracket is open inside the list.
fn counted_on(depth: usize, parts: usize) -> usize
    requires { parts ≤ 7 }
    ensures { result ≡ min 7 (parts + here depth) }
{
    if depth == 0 {
        (parts + 1).min(7)
    } else {
        parts
    }
}

// The number of parts of the list whose parts begin at a place.
pub(crate) fn count_parts(text: &[u8], place: usize) -> usize
    ensures { result ≡ parts_of (lexed_from text.now place) }
{
    // Tokens are followed: the place is where the last one ended, and no index.
    let mut depth = 0;
    let mut parts = 0;
    let mut at = place;
    'tokens: loop {
        match look_at(text, at) {
            Look::Atom(_, _, after) => {
                parts = counted_on(depth, parts);
                at = after;
            }
            Look::Open(_, after) => {
                parts = counted_on(depth, parts);
                depth += 1;
                at = after;
            }
            Look::Close(_, after) => {
                if depth == 0 {
                    return parts;
                }
                depth -= 1;
                at = after;
            }
            Look::End => return parts,
        }
    }
}
