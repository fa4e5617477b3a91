// The literal at a place.
ghost use Rattle.std.specs.Prelude.{◌≡◌};
ghost use Rattle.symbols.specs.Numbering.{token_size, literal_word};
ghost use Rattle.text.specs.Tokens.{lexed_from};

use forms::{Look, look_at};
use layout::Word;

// How many bytes the token has that stands next.
fn token_size_at(text: &[u8], place: usize) -> usize
    ensures { result ≡ token_size (lexed_from text.now place) }
{
    match look_at(text, place) {
        Look::Atom(_, at, after) | Look::Open(at, after) | Look::Close(at, after) => after - at,
        Look::End => 0,
    }
}

// There are at most 255 bytes between the quotes of a literal.
pub(crate) fn literal(text: &[u8], place: u16) -> Word
    ensures { result ≡ literal_word text.now place }
{
    let size = token_size_at(text, place as usize).saturating_sub(2);
    Word {
        place,
        size: size.min(255) as u8,
    }
}
