// Whole runs, from a script's text over a list of advances to the close, with all that is promised of them.
#![tactic(auto)]

mod asks;
mod conducting;
mod making;
mod rehearsing;

pub use asks::Ask;
pub use conducting::conduct;
pub use rehearsing::rehearse;
