// Names as parts of a text.
ghost use Rattle.std.specs.Prelude.{◌≡◌, ◌<◌, take, drop};
ghost use Rattle.names.specs.Parts.{part_of, sum_of, bucket_of};

use layout::Word;

// So many bytes of a text from a place on; less where the text ends before they do.
pub fn cut(text: &[u8], place: usize, size: usize) -> &[u8]
    ensures { result.now ≡ take size (drop place text.now) }
{
    let rest = &text[place.min(text.len())..];
    &rest[..size.min(rest.len())]
}

// The part of a text that a word is; less where the text ends before it does.
pub fn part(text: &[u8], word: Word) -> &[u8]
    ensures { result.now ≡ part_of text.now word }
{
    cut(text, word.place as usize, word.size as usize)
}

// A number that tells most bytes apart.
pub fn sum(bytes: &[u8]) -> usize
    ensures value { result ≡ sum_of bytes.now }
    ensures few { result < 4294967296 }
{
    let mut sum: usize = 0;
    for b in bytes {
        sum = (sum * 31 + *b as usize) % 4294967296;
    }
    sum
}

// In which of the 256 buckets a name lies.
pub(crate) fn bucket(name: &[u8]) -> usize
    ensures value { result ≡ bucket_of name.now }
    ensures few { result < 256 }
{
    sum(name) % 256
}
