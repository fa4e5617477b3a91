// The machine that runs a checked script over any store of cells: its state, and the small calls that every step is made of.
#![tactic(auto)]

mod control;
mod frame;
mod halt;
mod lets;
mod machine;
mod onward;
mod primitives;
mod reads;
mod slot;

pub use control::Control;
pub use frame::{Frame, Held};
pub use halt::Halt;
pub use lets::bind_next;
pub use machine::Machine;
pub use onward::Onward;
pub use primitives::unprinted;
pub use reads::{after, code_at, function_at, val_at, value_at};
pub use slot::Slot;
