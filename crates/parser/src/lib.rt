// The reader of scripts: `read` takes a text into a node list and tables, or answers the first refusal.
// The source, a spot or a mark, and the tables stay parameters of their own: each loan is its own, and a contract speaks of plain values.
#![tactic(auto)]

mod constructors;
mod definitions;
mod functions;
mod kind;
mod mark;
mod parameters;
mod reading;
mod script;
mod types;

pub use reading::read;
pub use script::{Script, is_unused};
