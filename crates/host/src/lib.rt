// What a program that runs a script takes in: the script and the input, as far as they go.
#![tactic(auto)]

mod reading;
mod sources;

pub use reading::read_at_most;
pub use sources::{read_input, read_script};
