// A copy that cannot go on. Its new cells are live, in two lists that are linked by their spare numbers: those that wait
// for their fields to be copied, and those that are finished.
#[derive(Clone, Copy, PartialEq, Eq)]
pub struct Unfinished {
    pub waiting: u32,
    pub finished: u32,
}
