// Writing bytes to the front of a slice, all of them or none.
ghost use Rattle.std.specs.Prelude.{◌≡◌};
ghost use Rattle.basis.specs.Printing.{fitting, over};

// How many bytes were written, or none where they do not fit; the rest of the slice is untouched.
pub fn put(bytes: &[u8], out: &mut [u8]) -> Option<usize>
    ensures count { result ≡ fitting bytes.now out.old }
    ensures after { out.new ≡ over bytes.now out.old }
{
    let n = bytes.len();
    // A test and not `get_mut(..n)?`: of a part that was written through it no more than its length would be known.
    if n <= out.len() {
        out[..n].copy_from_slice(bytes);
        Some(n)
    } else {
        None
    }
}
