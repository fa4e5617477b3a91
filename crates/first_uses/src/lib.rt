// Where a name that is used a second time was used first, and the refusal of a check as people read it.
#![tactic(auto)]

mod explaining;
mod uses;

pub use explaining::explain_check;
pub use uses::first_use;
