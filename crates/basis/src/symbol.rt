// The text of a symbol: the bytes between the quotes of its literal, with the escapes undone.
ghost use Rattle.std.specs.Prelude.{◌≡◌, ℕ, List, length};
ghost use Rattle.basis.specs.Printing.{unescaped, fitting, over};
ghost use Rattle.basis.specs.Printing.{goes as going_by};
ghost use Rattle.basis.specs.PrintingLaws.{Literal, Unescapes};

// Whether a byte goes, from whether the byte before it went.
fn goes(escaped: bool, b: u8) -> bool
    ensures { result ≡ going_by escaped b }
{
    !escaped && b == b'\\'
}

// How many bytes the symbol's text has.
pub fn symbol_len(body: &[u8]) -> usize
    ensures { result ≡ length (unescaped body.now) }
{
    // a `filter` would need a closure that remembers the byte before, which is no plainer than this loop
    let mut count = 0;
    let mut escaped = false;
    for b in body {
        escaped = goes(escaped, *b);
        if !escaped {
            count += 1;
        }
    }
    count
}

// Writes the symbol's text to the front of a slice, whole or not at all.
pub fn write_symbol(body: &[u8], out: &mut [u8]) -> Option<usize>
    ensures count { result ≡ fitting (unescaped body.now) out.old }
    ensures after { out.new ≡ over (unescaped body.now) out.old }
    ensures law { (text : List ℕ) → Literal body.now text → Unescapes body.now text }
{
    let size = symbol_len(body);
    if size > out.len() {
        return None;
    }
    // the places of two slices differ by what went, so one of them is counted
    let mut at = 0;
    let mut escaped = false;
    for b in body {
        escaped = goes(escaped, *b);
        if !escaped {
            out[at] = *b;
            at += 1;
        }
    }
    Some(size)
}
