// Worked scripts: what reading, checking and running make of them, by computing the definitions.
#![tactic(auto)]

mod laws;

pub use laws::worked_scripts;
