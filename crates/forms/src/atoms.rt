// What a single token is: a name, a literal, a part of a pattern. Each refuses at its own place.
ghost use Rattle.std.specs.Prelude.{◌≡◌};
ghost use Rattle.forms.specs.Atoms.{leaf_form, claimed};

use layout::{NODES, NodeForm};
use text::{Keyword, Refusal, Refused, TokenKind};

// A form, or a token that cannot stand at a place.
pub fn wrong(place: usize) -> Refused
    ensures { result ≡ record { refusal = Refusal.Form; place = place } }
{
    Refused {
        refusal: Refusal::Form,
        place,
    }
}

// What passes a limit at a place.
pub fn over_limit(place: usize) -> Refused
    ensures { result ≡ record { refusal = Refusal.Limit; place = place } }
{
    Refused {
        refusal: Refusal::Limit,
        place,
    }
}

// One node more, at a place: how many are used then.
pub(crate) fn claim(used: usize, entries: usize, place: u16) -> Result<usize, Refused>
    ensures { result ≡ claimed used entries place }
{
    if used < entries.min(NODES) {
        return Ok(used + 1);
    }
    let refusal = if entries < NODES {
        Refusal::NodeList
    } else {
        Refusal::Limit
    };
    Err(Refused {
        refusal,
        place: place as usize,
    })
}

// The node of a token that is an expression by itself. A name has at most 63 bytes, so its size fits.
pub(crate) fn leaf(kind: TokenKind, place: u16, size: usize) -> Option<NodeForm>
    ensures { result ≡ leaf_form kind place size }
{
    // A conversion, case by case: no arm is a step.
    match kind {
        TokenKind::Integer(n) => Some(NodeForm::Integer(n)),
        TokenKind::Symbol => Some(NodeForm::Symbol(place)),
        TokenKind::Name => Some(NodeForm::Name(size.min(255) as u8)),
        TokenKind::Keyword(Keyword::True) => Some(NodeForm::Boolean(true)),
        TokenKind::Keyword(Keyword::False) => Some(NodeForm::Boolean(false)),
        TokenKind::Keyword(Keyword::Unit) => Some(NodeForm::Unit),
        _ => None,
    }
}
