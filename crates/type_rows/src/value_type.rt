// The type of a value. A function type goes by its row.
#[derive(Clone, Copy, PartialEq, Eq)]
pub enum ValueType {
    Int,
    Bool,
    Sym,
    Unit,
    // by its number in text order
    Datatype(u16),
    Function(u16),
}
