// How a checked script lies in memory: what its names mean, and the code that a run walks. No name is compared in a run.
#![tactic(auto)]

mod code;
mod compiled;

pub use code::{Code, Op};
pub use compiled::{Compiled, FunctionCode, Owner};
