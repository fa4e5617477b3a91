// The node list. Each expression, branch and let binding of a script is one node, in the order of their first bytes; the parts of a
// node follow it.
use super::Word;

// What a node is.
#[derive(Clone, Copy, PartialEq, Eq)]
pub enum NodeForm {
    // an entry that no node uses; a case, since the list is of one fixed size and an `Option` around each entry takes more room
    Unused,
    Integer(i32),
    // the place of the first literal with the same bytes
    Symbol(u16),
    Boolean(bool),
    Unit,
    // a name at the node's place, of so many bytes
    Name(u8),
    If,
    Begin,
    Let,
    Case,
    Dup(Word),
    Apply,
    // the name that it binds
    Binding(Word),
    // the place of its pattern
    Branch(u16),
}

#[derive(Clone, Copy, PartialEq, Eq)]
pub struct Node {
    pub form: NodeForm,
    // the place of the form's first byte
    pub place: u16,
    // the number of the node after the last of its parts
    pub past: u16,
}

impl Node {
    // an entry that no node uses
    pub const UNUSED: Node = Node {
        form: NodeForm::Unused,
        place: 0,
        past: 0,
    };
}
