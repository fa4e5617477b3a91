// The pass over a whole text: the length first, then tokens and brackets from the left.
ghost use Rattle.std.specs.Prelude.{◌≡◌, [], length};
ghost use Rattle.text.specs.Grammar.{Lawful};
ghost use Rattle.text.specs.Scans.{scan as scanned, balanced, counted};
ghost use Rattle.text.specs.Tokens.{lexed_from};

use super::limits::{OPEN, TEXT};
use super::nesting::OpenBrackets;
use super::{Bracket, Reader, Refusal, Refused};

// The tokens and brackets of a text of any length.
fn pass(text: &[u8]) -> Result<usize, Refused>
    ensures { result ≡ counted (balanced (length text.now) [] (lexed_from text.now 0)) }
{
    let mut room = [Bracket::Round; OPEN];
    let mut opened = OpenBrackets::new(&mut room);
    let mut reader = Reader::new(text);
    let mut count = 0;
    while let Some(token) = reader.next()? {
        let place = token.place;
        opened
            .after(token.kind)
            .map_err(|refusal| Refused { refusal, place })?;
        count += 1;
    }
    if opened.len() > 0 {
        return Err(Refused {
            refusal: Refusal::Bracket,
            place: text.len(),
        });
    }
    Ok(count)
}

// How many tokens the text has, or the first refusal.
pub fn scan(text: &[u8]) -> Result<usize, Refused>
    ensures answer { result ≡ counted (scanned text.now) }
    ensures law { Lawful text.now result }
{
    if text.len() > TEXT {
        return Err(Refused {
            refusal: Refusal::Limit,
            place: TEXT,
        });
    }
    pass(text)
}
