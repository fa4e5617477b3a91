// What stands for a field of a constructor's pattern.
use layout::Word;

#[derive(Clone, Copy, PartialEq, Eq)]
pub struct Part {
    // the name that is bound; none for a wildcard
    pub name: Option<Word>,
    // the place behind it
    pub after: usize,
}
