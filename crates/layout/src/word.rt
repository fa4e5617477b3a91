// A name, as a part of the text: its place and how many bytes it has.
#[derive(Clone, Copy, PartialEq, Eq)]
pub struct Word {
    pub place: u16,
    pub size: u8,
}

impl Word {
    // what stands in an entry that no word uses
    pub const UNUSED: Word = Word { place: 0, size: 0 };
}
