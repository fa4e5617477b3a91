// The definitions of a script. Each has the place of its first byte; numbers are those of entries in the tables and the node list.
use super::Word;

#[derive(Clone, Copy, PartialEq, Eq)]
pub struct Datatype {
    pub place: u16,
    pub name: Word,
    // its constructors: the number of the first, and the number after the last
    pub first: u16,
    pub past: u16,
}

#[derive(Clone, Copy, PartialEq, Eq)]
pub struct Constructor {
    pub place: u16,
    pub name: Word,
    // the number of its datatype's definition
    pub datatype: u16,
    // its field types: the number of the first type node, and the number after the last
    pub first: u16,
    pub past: u16,
    // how many fields it has
    pub fields: u8,
}

impl Constructor {
    // an entry that no constructor uses
    pub const UNUSED: Constructor = Constructor {
        place: 0,
        name: Word::UNUSED,
        datatype: 0,
        first: 0,
        past: 0,
        fields: 0,
    };
}

#[derive(Clone, Copy, PartialEq, Eq)]
pub struct Annotation {
    pub place: u16,
    pub name: Word,
    // the type node of its type
    pub root: u16,
}

#[derive(Clone, Copy, PartialEq, Eq)]
pub struct Define {
    pub place: u16,
    pub name: Word,
    // its parameters: the number of the first, and the number after the last
    pub first: u16,
    pub past: u16,
    // the node of its body
    pub body: u16,
}

#[derive(Clone, Copy, PartialEq, Eq)]
pub struct Val {
    pub place: u16,
    pub name: Word,
    // the node of its expression
    pub body: u16,
}

#[derive(Clone, Copy, PartialEq, Eq)]
pub enum Definition {
    // an entry that no definition uses; a case, since the list is of one fixed size and an `Option` around each entry takes more room
    Unused,
    Datatype(Datatype),
    Annotation(Annotation),
    Define(Define),
    Val(Val),
}
