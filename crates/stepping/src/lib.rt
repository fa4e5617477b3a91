// One step of a run: what comes next is entered, or handed to what waits for it.
#![tactic(auto)]

mod dispatch;
mod starting;
mod steps;

pub use steps::step;
