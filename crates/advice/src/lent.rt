// What the host lent to a run.
#[derive(Clone, Copy)]
pub struct Lent {
    // cells that were free at opening
    pub cells: usize,
    // entries of the stack of waiting expressions
    pub first: usize,
    // entries of the stack of bound names and arguments
    pub second: usize,
    // steps that the run might take
    pub allowance: u32,
}
