// The rules of a run, on trees: definitions and theorems. They know no store and no slice;
// only the kind of a fault comes from what a stack, a walk and arithmetic refuse.
#![tactic(auto)]

mod answers;
mod fault;
mod laws;

pub use answers::{Advanced, Closed, End};
pub use fault::{Fault, FaultKind, Named};
pub use laws::{
    accounts_stand, never_stuck, pausing_changes_nothing, stacks_hold, tests_in_order,
    too_few_cells_exactly,
};
