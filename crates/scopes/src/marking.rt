// A name is consumed afterwards if some arm consumed it.
// The marks are written by their numbers: after `iter_mut().zip(..)` nothing would be known of what was written.
ghost use Rattle.std.specs.Prelude.{◌≡◌, ℕ, ◌<◌, ◌||◌, false, slice_index_or};

pub fn join(marks: &mut [bool; 64], others: &[bool; 64])
    ensures { (k : ℕ) → slice_index_or marks.new k false ≡ (slice_index_or marks.old k false || slice_index_or others.now k false) }
{
    'places: for (i, other) in others.iter().enumerate() {
        marks[i] = marks[i] || *other;
    }
}
