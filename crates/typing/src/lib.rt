// The check of a script: exactly the typing and consumption rules.
#![tactic(auto)]

mod laws;

pub use laws::rules_stand;
