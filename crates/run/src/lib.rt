// A run over any store: opening, advancing and closing it.
#![tactic(auto)]

mod advances;
mod closing;
mod ends;
mod faults;
mod opening;
mod owners;
mod places;
mod runs;
mod stretches;

pub use advances::advance;
pub use closing::close;
pub use opening::open;
pub use owners::owner_at;
pub use runs::{OpenRun, Run};
