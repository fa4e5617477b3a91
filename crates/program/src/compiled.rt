// The code of a whole script, with the tables that lead into it.
use super::code::Code;
use layout::Word;

// A define: the node of its body, and how many parameters it has.
#[derive(Clone, Copy, PartialEq, Eq)]
pub struct FunctionCode {
    pub body: u16,
    pub arity: u16,
}

// A define or a val: its place, and its name as a part of the text.
#[derive(Clone, Copy, PartialEq, Eq)]
pub struct Owner {
    pub place: u16,
    pub name: Word,
}

// Arrays with their counts: a library takes no heap.
#[derive(Drop)]
pub struct Compiled {
    pub code: [Code; 4096],
    // the defines in text order
    pub functions: [FunctionCode; 256],
    // the nodes of the vals' expressions, in text order
    pub vals: [u16; 256],
    // defines and vals together, in text order
    pub owners: [Owner; 256],
    pub owner_count: u16,
    // the number of main among the defines, and the place where it begins
    pub main: u16,
    pub main_place: u16,
}
