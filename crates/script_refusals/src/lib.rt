// Why a script is refused, and where: the refusals of reading and those of the check in one enum.
#![tactic(auto)]

mod refusal;

pub use refusal::{Refusal, Refused};
