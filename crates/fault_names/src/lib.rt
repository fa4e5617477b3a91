// The function that a fault names, as a part of the list of the basis' names or of the script's text.
#![tactic(auto)]

mod naming;

pub use naming::{name_in, name_of};
