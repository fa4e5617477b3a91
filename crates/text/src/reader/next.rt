// The tokens of a text one by one.
ghost use Rattle.std.specs.Prelude.{◌≡◌, min, length};
ghost use Rattle.text.specs.Reading.{Reads};

use super::super::bytes::separator_len;
use super::super::front::{Front, front_of};
use super::super::{Refused, Token};
use super::Reader;

impl<'t> Reader<'t> {
    // A reader at the text's beginning.
    pub fn new(text: &'t [u8]) -> Reader<'t>
        ensures text { result.text.now ≡ text.now }
        ensures place { result.place ≡ 0 }
    {
        Reader { text, place: 0 }
    }

    // A reader at a place, or at the text's end where the place lies behind it.
    pub fn at(text: &'t [u8], place: usize) -> Reader<'t>
        ensures text { result.text.now ≡ text.now }
        ensures place { result.place ≡ min place (length text.now) }
    {
        Reader {
            text,
            place: place.min(text.len()),
        }
    }

    // The next token, or none at the end. A refusal leaves the reader where it was.
    pub fn next(&mut self) -> Result<Option<Token<'t>>, Refused>
        ensures reads { Reads self.old.text.now self.old.place result self.new.place }
        ensures text { self.new.text ≡ self.old.text }
    {
        let text = self.text;
        let place = self.place + separator_len(&text[self.place..]);
        // by `map_err` and `?` a proof has to say what the closure did, which is longer than these three arms
        match front_of(&text[place..]) {
            Ok(None) => {
                self.place = place;
                Ok(None)
            }
            Err(refusal) => Err(Refused { refusal, place }),
            Ok(Some(Front { kind, size })) => {
                let end = place + size;
                self.place = end;
                Ok(Some(Token {
                    kind,
                    place,
                    bytes: &text[place..end],
                }))
            }
        }
    }
}
