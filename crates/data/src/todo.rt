use cells::values::Value;

// What is ahead of a walk: the value at hand, and then the work list, of which `rest` is the first cell.
#[derive(Clone, Copy, PartialEq, Eq)]
pub struct Todo {
    pub value: Value,
    pub rest: u32,
}
