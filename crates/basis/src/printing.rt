// Printing: how many bytes a print has, and writing them. `body` stands between the quotes of the symbol's literal, where a symbol is
// printed.
ghost use Rattle.std.specs.Prelude.{◌≡◌, length};
ghost use Rattle.basis.specs.Printing.{text_of_bool, printed, fitting, over};

use super::output::put;
use super::{Print, decimal_len, symbol_len, write_decimal, write_symbol};

fn bool_text(b: bool) -> &'static [u8]
    ensures { result.now ≡ text_of_bool b }
{
    if b { b"true" } else { b"false" }
}

pub fn print_len(print: Print, body: &[u8]) -> usize
    ensures { result ≡ length (printed print body.now) }
{
    match print {
        Print::Int(n) => decimal_len(n),
        Print::Bool(b) => bool_text(b).len(),
        Print::Sym(_) => symbol_len(body),
        Print::Unit => 4,
        Print::Newline => 1,
        Print::Byte(_) => 1,
    }
}

// Writes the print to the front of a slice, whole or not at all.
pub fn write_print(print: Print, body: &[u8], out: &mut [u8]) -> Option<usize>
    ensures count { result ≡ fitting (printed print body.now) out.old }
    ensures after { out.new ≡ over (printed print body.now) out.old }
{
    // A closed enum, whose cases are written each in its own way.
    match print {
        Print::Int(n) => write_decimal(n, out),
        Print::Bool(b) => put(bool_text(b), out),
        Print::Sym(_) => write_symbol(body, out),
        Print::Unit => put(b"unit", out),
        Print::Newline => put(b"\n", out),
        Print::Byte(b) => put(&[b], out),
    }
}
