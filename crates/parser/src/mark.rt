// Where reading constructors stands: its place in the text, and how many type nodes and constructors are used.
// Its bounds stay in the contracts: as ghost fields each definition and lemma that writes a mark would have to prove them.
#[derive(Clone, Copy, PartialEq, Eq)]
pub struct Mark {
    pub place: usize,
    pub types: usize,
    pub constructors: usize,
}
