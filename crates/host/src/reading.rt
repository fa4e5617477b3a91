// Readers, up to so many bytes.
ghost use Rattle.std.specs.Prelude.{◌≡◌, ◌≤◌, take, vec_len, IfOk, IfSome};

use std::alloc::Global;
use std::io;
use std::io::Read;

// The bytes that a reader has, or the first `most` of them. No more than these are kept.
pub fn read_at_most<R: Read + Drop>(heap: Global, reader: R, most: usize) -> io::Result<Vec<u8>>
    ensures within { IfOk result (λ bytes. vec_len bytes ≤ most) }
    ensures bytes { IfOk result (λ bytes. IfSome (R.remaining reader) (λ all. bytes.items ≡ take most all)) }
{
    let mut bytes = Vec::new(heap);
    reader.take(most as u64).read_to_end(&mut bytes)?;
    bytes.truncate(most);
    Ok(bytes)
}
