// A row of the table of types. The parts of a function type follow it: its parameter types, then its result type.
use super::shape::Shape;

#[derive(Clone, Copy, PartialEq, Eq)]
pub struct Row {
    pub shape: Shape,
    // the number of the row after the last of its parts
    pub past: u16,
    // for a function type, the row of its result type
    pub result: u16,
}

// What is read where there is no row.
pub(crate) const NO_ROW: Row = Row {
    shape: Shape::Unit,
    past: 0,
    result: 0,
};
