// The bytes of a literal, between its quotes.
ghost use Rattle.std.specs.Prelude.{◌≡◌};
ghost use Rattle.symbols.specs.Parts.{quoted};

use layout::Word;
use names::cut;

// The bytes of a literal behind its first quote; less where the text ends before they do.
pub(crate) fn between(text: &[u8], literal: Word) -> &[u8]
    ensures { result.now ≡ quoted text.now literal }
{
    cut(text, literal.place as usize + 1, literal.size as usize)
}
