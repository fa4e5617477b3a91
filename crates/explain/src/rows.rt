// Bytes as they are shown to people: one column for each, whatever the byte.
ghost use Rattle.std.specs.Prelude.{◌≡◌, ℕ, ◌<◌, ◌++◌, map, IfOk, string_bytes, codes};
ghost use Rattle.explain.specs.Shown.{byte_shown, byte_under};

use std::alloc::{AllocError, Global};

// Printable ASCII and the tab as they are, a carriage return as a blank, and every other byte as `?`.
fn shown_byte(b: u8) -> u8
    ensures value { result ≡ byte_shown b }
    ensures ascii { result < 128 }
{
    match b {
        b'\t' | b' '..=b'~' => b,
        b'\r' => b' ',
        _ => b'?',
    }
}

// What stands under a byte before the mark: a tab under a tab, so that both rows go on at the same stop.
fn under_byte(b: u8) -> u8
    ensures value { result ≡ byte_under b }
    ensures ascii { result < 128 }
{
    if b == b'\t' { b'\t' } else { b' ' }
}

// A row with one column for each byte: what `column` puts there.
fn row<F: Fn(u8) -> u8>(heap: Global, bytes: &[u8], column: F) -> Result<String, AllocError>
    requires callable { F.IsAlwaysCallable column }
    requires ascii { (b r : ℕ) → F.post column b r → r < 128 }
    ensures { (f : ℕ → ℕ) → ((b r : ℕ) → F.post column b r → r ≡ f b) → IfOk result (λ t. string_bytes t ≡ map f bytes.now) }
{
    let mut row = String::new(heap);
    for b in bytes {
        row.push(char::from(column(*b)))?;
    }
    Ok(row)
}

// The bytes as shown.
pub fn shown(heap: Global, bytes: &[u8]) -> Result<String, AllocError>
    ensures { IfOk result (λ t. string_bytes t ≡ map byte_shown bytes.now) }
{
    row(heap, bytes, shown_byte)
}

// The row under a line, with the mark under the byte that follows `lead`.
pub fn mark_row(heap: Global, lead: &[u8]) -> Result<String, AllocError>
    ensures { IfOk result (λ t. string_bytes t ≡ map byte_under lead.now ++ codes "^") }
{
    let mut under = row(heap, lead, under_byte)?;
    under.push('^')?;
    Ok(under)
}
