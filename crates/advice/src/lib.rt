// What people are told of a refusal or a fault: a sentence for each number that says what is wrong and what to try, and the whole explanation.
#![tactic(auto)]

mod explanations;
mod faults;
mod lent;
mod refusals;

pub use explanations::{explain_fault, explain_refusal, explain_second_use};
pub use faults::fault_advice;
pub use lent::Lent;
pub use refusals::{refusal_advice, store_advice};
