// The check of a script: the rules for the whole of it, then its bodies in text order; and the code of a script that passes.
#![tactic(auto)]

mod checks;
mod defines;
mod draft;
mod whole;

pub use checks::{Checked, check};
