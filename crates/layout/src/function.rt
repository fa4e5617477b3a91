// The functions of a script. An annotation opens a function's entry and its define fills it, or the other way round.
use super::Word;

// The two halves of a function.
#[derive(Clone, Copy, PartialEq, Eq)]
pub enum Half {
    Annotation,
    Define,
}

// The numbers of the annotation's and the define's definitions, as far as there are any.
#[derive(Clone, Copy, PartialEq, Eq)]
pub struct Function {
    pub name: Word,
    pub annotation: Option<u16>,
    pub define: Option<u16>,
}

// The entries in the order in which they were opened. Each annotation and each define opens one at most.
// An array with its count: a library takes no heap.
#[derive(Clone, Copy)]
pub struct Functions {
    pub count: usize,
    pub entries: [Function; 768],
}
