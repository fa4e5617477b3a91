// What a function of the basis prints.
#[derive(Clone, Copy, PartialEq, Eq)]
pub enum Print {
    Int(i32),
    Bool(bool),
    // the symbol with this number
    Sym(u32),
    Unit,
    Newline,
    Byte(u8),
}
