// The integer that a word writes: digits, with or without one sign before them.
ghost use Rattle.std.specs.Prelude.{◌≡◌, ◌≤◌, true};
ghost use Rattle.std.specs.List.{list_all};
ghost use Rattle.text.specs.Integers.{is_minus, unsigned, digit_byte, only_digits, decimal, capped, signed, integer_value};

use super::Refusal;

// Whether a word's sign is minus, and what follows the sign.
fn split_sign(word: &[u8]) -> (bool, &[u8])
    ensures minus { result.0 ≡ is_minus word.now }
    ensures rest { result.1.now ≡ unsigned word.now }
{
    match word {
        [b'-', digits @ ..] => (true, digits),
        [b'+', digits @ ..] => (false, digits),
        digits => (false, digits),
    }
}

fn all_digits(s: &[u8]) -> bool
    ensures { result ≡ list_all digit_byte s.now }
{
    s.iter().all(|b| b.is_ascii_digit())
}

// Whether the bytes are some digits and nothing else.
fn is_digits(s: &[u8]) -> bool
    ensures { result ≡ only_digits s.now }
{
    !s.is_empty() && all_digits(s)
}

// The number that the digits write, or none above 32 bits.
fn magnitude(digits: &[u8]) -> Option<u32>
    requires { only_digits digits.now ≡ true }
    ensures { result ≡ capped (decimal 0 digits.now) }
{
    let mut n: u32 = 0;
    // `parse` reads text, takes a sign, and its error would be dropped
    for d in digits {
        n = n.checked_mul(10)?.checked_add(u32::from(*d - b'0'))?;
    }
    Some(n)
}

// The integer with this sign and magnitude.
fn with_sign(minus: bool, n: u32) -> Result<i32, Refusal>
    ensures { result ≡ signed minus n }
{
    let n = i64::from(n);
    i32::try_from(if minus { -n } else { n }).map_err(|_| Refusal::Integer)
}

// The integer that `word` writes; none where it is a name or a reserved word, and a refusal where it needs more than 32 bits.
pub(crate) fn integer_of(word: &[u8]) -> Result<Option<i32>, Refusal>
    ensures { result ≡ integer_value word.now }
{
    let (minus, digits) = split_sign(word);
    if !is_digits(digits) {
        return Ok(None);
    }
    let n = magnitude(digits).ok_or(Refusal::Integer)?;
    with_sign(minus, n).map(Some)
}
