// Ints in decimal.
ghost use Rattle.std.specs.Prelude.{◌≡◌, length};
ghost use Rattle.basis.specs.Printing.{decimal_of, fitting, over};
ghost use Rattle.basis.specs.PrintingLaws.{Spells};

use super::output::put;
use itoa::Buffer;

// How many bytes the int has in decimal.
pub fn decimal_len(n: i32) -> usize
    ensures { result ≡ length (decimal_of n) }
{
    Buffer::new().format(n).len()
}

// Writes the int to the front of a slice, whole or not at all.
pub fn write_decimal(n: i32, out: &mut [u8]) -> Option<usize>
    ensures count { result ≡ fitting (decimal_of n) out.old }
    ensures after { out.new ≡ over (decimal_of n) out.old }
    ensures law { Spells n (decimal_of n) }
{
    put(Buffer::new().format(n).as_bytes(), out)
}
