// The last line that a program writes of a script: how its run ended, or why it was refused.
#![tactic(auto)]

mod line;
mod outcome;

pub use line::last_line;
pub use outcome::Outcome;
