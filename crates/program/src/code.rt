// The code: for each node of a script what it does, with its names resolved.

// What a node does. An entry's distance is how far it lies below the newest entry: arguments handed over lie among the names, so
// that it is the same in every run.
#[derive(Clone, Copy, PartialEq, Eq)]
pub enum Op {
    // an entry that no node uses; a case, since the list is of one fixed size and an `Option` around each entry takes more room
    Unused,
    Integer(i32),
    // the place of the first literal with the same bytes
    Symbol(u16),
    Boolean(bool),
    Unit,
    // a local name, by its entry's distance
    Local(u16),
    Dup(u16),
    // a function by its number, a val by its place in text order
    Function(u16),
    Val(u16),
    If,
    Begin,
    // how many names it binds
    Let(u16),
    Case,
    // an application whose head is entered
    Call,
    // an application of a constructor: its number, and how many arguments follow
    Build(u16, u16),
    // a constructor's name at the head of an application: never entered
    Head,
    // a binding of a let; its expression follows
    Binding,
    // a branch whose pattern is a wildcard; its expression follows
    Any,
    // a branch for a constructor, with the fields that it binds: the lowest bit is the first field's
    Branch(u16, u8),
}

#[derive(Clone, Copy, PartialEq, Eq)]
pub struct Code {
    pub op: Op,
    // the place of the form's first byte
    pub place: u16,
    // the number of the node after the last of its parts
    pub past: u16,
}
