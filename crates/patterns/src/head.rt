// A constructor's pattern: its place, the constructor's name, and the place where its parts begin behind that name.
use layout::Word;

#[derive(Clone, Copy, PartialEq, Eq)]
pub struct Head {
    pub place: usize,
    pub name: Word,
    pub inside: usize,
}
