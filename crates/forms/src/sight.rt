// What stands next in a text.
ghost use Rattle.std.specs.Prelude.{◌≡◌, ◌≤◌, length};
ghost use Rattle.forms.specs.Looks.{Sees, Opens, Closes, Ends, Behind};

use super::atoms::wrong;
use text::{Reader, Refused, TokenKind};

// What stands next from a place on, with its own place and the place behind it.
// The end is one case of four, and no `Option` around three: each reader takes all four by one `match`.
#[derive(Clone, Copy, PartialEq, Eq)]
pub enum Look {
    End,
    Open(usize, usize),
    Close(usize, usize),
    Atom(TokenKind, usize, usize),
}

pub fn look_at(text: &[u8], place: usize) -> Look
    ensures { Sees text.now place result }
{
    let mut reader = Reader::at(text, place);
    match reader.next() {
        Ok(Some(token)) => {
            let after = token.place + token.bytes.len();
            match token.kind {
                TokenKind::Open(_) => Look::Open(token.place, after),
                TokenKind::Close(_) => Look::Close(token.place, after),
                kind => Look::Atom(kind, token.place, after),
            }
        }
        _ => Look::End,
    }
}

// The opening bracket of a list: its place, and the place behind it.
#[derive(Clone, Copy, PartialEq, Eq)]
pub struct Opened {
    pub place: usize,
    pub inside: usize,
}

// The opening bracket that stands next, or the refusal of what stands in its place.
pub fn opening_at(text: &[u8], place: usize) -> Result<Opened, Refused>
    ensures { Opens text.now place result }
{
    match look_at(text, place) {
        Look::Open(place, inside) => Ok(Opened { place, inside }),
        Look::Atom(_, at, _) | Look::Close(at, _) => Err(wrong(at)),
        Look::End => Err(wrong(place)),
    }
}

// The place behind the closing bracket that stands next, or none where something else does.
pub fn closing_at(text: &[u8], place: usize) -> Option<usize>
    ensures { Closes text.now place result }
{
    match look_at(text, place) {
        Look::Close(_, after) => Some(after),
        Look::Open(_, _) | Look::Atom(_, _, _) | Look::End => None,
    }
}

// The place behind the closing bracket that stands next, or the refusal at the place where something else does.
pub fn end_at(text: &[u8], place: usize) -> Result<usize, Refused>
    ensures { Ends text.now place result }
{
    closing_at(text, place).ok_or(wrong(place))
}

// The place behind the token that stands next, or the place itself where none does.
pub fn behind(text: &[u8], place: usize) -> usize
    ensures { Behind text.now place result }
{
    match look_at(text, place) {
        Look::Open(_, after) | Look::Close(_, after) | Look::Atom(_, _, after) => after,
        Look::End => place,
    }
}
