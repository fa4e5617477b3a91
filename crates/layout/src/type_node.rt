// The table of type expressions. Each type expression of a script is one entry; the parts of a function type follow it: its parameter
// types, then its result type.

// What a type expression is. The name of a datatype is a part of the text: its place is the node's own.
#[derive(Clone, Copy, PartialEq, Eq)]
pub enum TypeForm {
    // an entry that no type expression uses; a case, since the list is of one fixed size and an `Option` around each entry takes more room
    Unused,
    Int,
    Bool,
    Sym,
    Unit,
    // how many bytes the name has
    Datatype(u8),
    Function,
}

#[derive(Clone, Copy, PartialEq, Eq)]
pub struct TypeNode {
    pub form: TypeForm,
    // the place of the first byte
    pub place: u16,
    // the number of the entry after the last of its parts
    pub past: u16,
}

impl TypeNode {
    // an entry that no type expression uses
    pub const UNUSED: TypeNode = TypeNode {
        form: TypeForm::Unused,
        place: 0,
        past: 0,
    };
}
