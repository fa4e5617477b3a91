// Names where only a name can stand.
ghost use Rattle.std.specs.Prelude.{◌≡◌, ℕ, ◌+◌, ◌-◌, ◌≤◌, length};
ghost use Rattle.forms.specs.Looks.{GoesName, Named};
ghost use Rattle.grammar.specs.Reading.{Tally, name_read};
ghost use Rattle.grammar.specs.Sexps.{Sexp, Atoms};
ghost use Rattle.grammar.specs.Streams.{stream};
ghost use Rattle.layout.specs.Words.{word_at};
ghost use Rattle.text.specs.Tokens.{Lexed, lexed_from};

use super::atoms::wrong;
use super::sight::{Look, look_at};
use layout::Word;
use text::{Refused, TokenKind};

// A name's place, and the place behind it.
#[derive(Clone, Copy, PartialEq, Eq)]
pub struct NameAt {
    pub place: usize,
    pub after: usize,
}

impl NameAt {
    // The name as a part of the text, where it is one: not longer than a name may be, and within the longest text.
    pub fn word(self) -> Word
        ensures { self.place ≤ self.after → self.after ≤ self.place + 63 → self.after ≤ 65535 → result ≡ word_at self.place (self.after - self.place) }
    {
        Word {
            place: self.place.min(65535) as u16,
            size: self.after.saturating_sub(self.place).min(255) as u8,
        }
    }
}

pub fn name_at(text: &[u8], place: usize) -> Result<NameAt, Refused>
    ensures goes { GoesName text.now place result }
    ensures told { (s : Sexp) (rest : Lexed) (n : Tally) → lexed_from text.now place ≡ stream s rest → Atoms s → Named text.now rest (name_read s n) result }
{
    match look_at(text, place) {
        Look::Atom(TokenKind::Name, place, after) => Ok(NameAt { place, after }),
        Look::Atom(_, at, _) | Look::Open(at, _) | Look::Close(at, _) => Err(wrong(at)),
        Look::End => Err(wrong(place)),
    }
}
