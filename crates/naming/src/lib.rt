// Names in the bodies of a script: those that are entered or dupped, and those that bindings, patterns and parameters bind.
// Scope and locals go side by side: a guard lends the scope alone, so that a struct of both would be made anew at each call.
// A world is what is only read; codes are written, so they are a loan of their own; a node's number and height are its own.
#![tactic(auto)]

mod binding;
mod leaves;
mod matching;
mod reads;
mod world;

pub use binding::{bind, bind_parameters};
pub use leaves::{dup, literal, name};
pub use matching::pattern;
pub use reads::{after, mismatch, node_at, note};
pub use world::World;
