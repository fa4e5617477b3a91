// Steps in which an application has all its arguments: functions of the basis are applied, defines are called, data is built.
#![tactic(auto)]

mod applying;
mod builds;
mod calls;
mod concluding;
mod quotes;

pub use builds::build_last;
pub use calls::{call, call_bare};
