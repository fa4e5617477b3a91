// What a case expects, beside what was answered.
#![tactic(auto)]

mod agreeing;
mod whole;

pub use agreeing::{advance_agrees, close_agrees, verdict_agrees};
pub use whole::{output_of, steps_of};
