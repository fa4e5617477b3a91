// How much a script has of each.
#[derive(Clone, Copy, PartialEq, Eq)]
pub struct Counts {
    pub nodes: usize,
    pub types: usize,
    pub definitions: usize,
    pub datatypes: usize,
    // defines and vals together
    pub bindings: usize,
    pub constructors: usize,
    // of all defines together
    pub parameters: usize,
}
