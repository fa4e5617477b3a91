// Steps that hand a finished value to the expression that waits for it, one function for each row of the rules.
// Each row takes the machine, and the store where it changes it, and then the fields of its frame; a struct of these would be made for one call.
#![tactic(auto)]

mod arguments;
mod cases;
mod choice;
mod choosing;
mod fields;
mod leaving;
mod parts;

pub use arguments::{hand_argument, hand_field, hand_head};
pub use cases::hand_tested;
pub use leaving::{hand_leaving, hand_main};
pub use parts::{hand_arm, hand_binding, hand_part, hand_test};
