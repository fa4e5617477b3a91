// A value that a function of the basis takes: everything but functions and data.
#[derive(Clone, Copy, PartialEq, Eq)]
pub enum Plain {
    Int(i32),
    Bool(bool),
    // a symbol by its number: equal symbols have one number
    Sym(u32),
    Unit,
}
