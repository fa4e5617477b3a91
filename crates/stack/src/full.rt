// The answer of a push that found no room.
#[derive(Clone, Copy, Debug, PartialEq, Eq)]
pub struct Full;
