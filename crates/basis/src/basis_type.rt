// The types of the parameters and results of the basis.
#[derive(Clone, Copy, PartialEq, Eq)]
pub enum BasisType {
    Int,
    Bool,
    Sym,
    Unit,
}
