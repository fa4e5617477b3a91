// Steps that enter an expression, one function for each row of the rules.
#![tactic(auto)]

mod builds;
mod expressions;
mod lookups;

pub use expressions::enter;
pub use lookups::{enter_dup, enter_local, enter_val};
