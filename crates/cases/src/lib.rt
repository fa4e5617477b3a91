// Cases with their answers, as files of the repository write them: a script with the verdict of the check, or with a run's advances
// and its close.
#![tactic(auto)]

mod case;
mod checks;
mod front;
mod malformed;
mod reading;
mod runs;
mod unread;

pub use case::{Advance, Case, CheckCase, Close, End, Fault, Refused, RunCase, Sizes};
pub use malformed::Malformed;
pub use reading::{CaseAt, next_case};
pub use unread::Unread;
