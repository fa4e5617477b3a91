// Bytes that two digits write.
ghost use Rattle.std.specs.Prelude.{◌≡◌, ◌+◌, ◌*◌, ◌<◌};
ghost use Rattle.case_files.specs.Hex.{nibble};

// What a digit from 0 to 9 or from a to f writes; other bytes write nothing.
fn nibble(digit: u8) -> u8
    ensures value { result ≡ nibble digit }
    ensures few { result < 16 }
{
    // `to_digit(16)` takes capitals too
    match digit {
        b'0'..=b'9' => digit - b'0',
        b'a'..=b'f' => digit - b'a' + 10,
        _ => 0,
    }
}

// The byte that two digits write.
pub(crate) fn byte_of(high: u8, low: u8) -> u8
    ensures { result ≡ nibble high * 16 + nibble low }
{
    nibble(high) * 16 + nibble(low)
}
