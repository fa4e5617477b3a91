// What stands at the front of a text that begins with no separator.
ghost use Rattle.std.specs.Prelude.{◌≡◌, ◌+◌, ◌≤◌, length, IfOk};
ghost use Rattle.text.specs.Fronts.{Within, text_front, front_symbol, front_word};

use super::bytes::{Class, class_of, symbol_len, word_len};
use super::limits::SYMBOL;
use super::word::word_kind;
use super::{Refusal, TokenKind};

// A token at the front: its kind, and how many bytes it has.
#[derive(Clone, Copy, Debug, PartialEq, Eq)]
pub struct Front {
    pub kind: TokenKind,
    pub size: usize,
}

// The symbol whose first quote stands before `inside`.
fn symbol_front(inside: &[u8]) -> Result<Front, Refusal>
    ensures value { result ≡ front_symbol inside.now }
    ensures within { IfOk result (λ front. front.size ≤ length inside.now + 1) }
{
    let n = symbol_len(inside).ok_or(Refusal::Symbol)?;
    if n > SYMBOL {
        return Err(Refusal::Limit);
    }
    Ok(Front {
        kind: TokenKind::Symbol,
        size: n + 2,
    })
}

// The word that `rest` begins with.
fn word_front(rest: &[u8]) -> Result<Front, Refusal>
    ensures value { result ≡ front_word rest.now }
    ensures within { IfOk result (λ front. front.size ≤ length rest.now) }
{
    let size = word_len(rest);
    let kind = word_kind(&rest[..size])?;
    Ok(Front { kind, size })
}

// The token that `rest` begins with; none where it begins with a separator or is empty.
pub(crate) fn front_of(rest: &[u8]) -> Result<Option<Front>, Refusal>
    ensures value { result ≡ text_front rest.now }
    ensures within { Within result (length rest.now) }
{
    let [first, inside @ ..] = rest else {
        return Ok(None);
    };
    match class_of(*first) {
        Class::Open(shape) => Ok(Some(Front {
            kind: TokenKind::Open(shape),
            size: 1,
        })),
        Class::Close(shape) => Ok(Some(Front {
            kind: TokenKind::Close(shape),
            size: 1,
        })),
        Class::Quote => symbol_front(inside).map(Some),
        Class::Word => word_front(rest).map(Some),
        Class::Blank | Class::Newline | Class::Comment => Ok(None),
    }
}
