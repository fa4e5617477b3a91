// Where reading stands: its place in the text, and how many entries of a table are used.
// Its bound stays in the contracts: as a ghost field each definition and lemma that writes a spot would have to prove it.
#[derive(Clone, Copy, PartialEq, Eq)]
pub struct Spot {
    pub place: usize,
    pub used: usize,
}
