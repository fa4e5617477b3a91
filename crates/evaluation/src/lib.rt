// The evaluation of expressions as a relation, and that runs agree with it.
#![tactic(auto)]

mod laws;

pub use laws::evaluation_stands;
