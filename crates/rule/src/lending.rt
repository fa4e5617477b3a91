// What the program lends to a run.
use advice::Lent;

pub const CELLS: usize = 1000;

// Of each stack.
pub const ENTRIES: usize = 1000;

pub const STEPS: u32 = 1_000_000;

// For the words on a fault.
pub const LENT: Lent = Lent {
    cells: CELLS,
    first: ENTRIES,
    second: ENTRIES,
    allowance: STEPS,
};
