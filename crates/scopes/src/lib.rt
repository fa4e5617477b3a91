// The local names in scope: entries in a slice that is lent, a depth, and marks of those that are consumed. What a form binds leaves the
// scope however its check ends.
#![tactic(auto)]

mod guard;
mod local;
mod marking;
mod naming;
mod scope;

pub use guard::Guard;
pub use local::Local;
pub use marking::join;
pub use naming::{find, local_at, push};
pub use scope::Scope;
