// What one type expression is, without its parts.
#[derive(Clone, Copy, PartialEq, Eq)]
pub enum Shape {
    Int,
    Bool,
    Sym,
    Unit,
    // by its number in text order
    Datatype(u16),
    // how many parameters it has
    Function(u16),
}
