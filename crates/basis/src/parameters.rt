// The parameters of a function of the basis, by their types.
use super::BasisType;

#[derive(Clone, Copy, PartialEq, Eq)]
pub enum Parameters {
    Zero,
    One(BasisType),
    Two(BasisType, BasisType),
}
