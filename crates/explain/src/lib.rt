// A refusal as people read it, for every program that tells an author where a script is wrong.
#![tactic(auto)]

mod lines;
mod message;
mod position;
mod rows;

pub use message::{explanation, explanation_with_first, pointed};
pub use position::{Position, position_of};
pub use rows::shown;
