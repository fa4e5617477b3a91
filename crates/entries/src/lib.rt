// Entries of a slice that is lent.
#![tactic(auto)]

ghost use Rattle.std.specs.Prelude.{◌≡◌, ℕ, length, slice_set};

// An entry is written; past the end nothing changes.
// The index is tested by hand: after a write through `get_mut` no more than the length would be known.
pub fn put<T: Copy>(xs: &mut [T], k: usize, x: T)
    ensures written { xs.new ≡ slice_set xs.old k x }
    ensures long { length xs.new ≡ length xs.old }
{
    if k < xs.len() {
        xs[k] = x;
    }
}
