// Tours of the walks over data: each sizes, copies and drops long lists, deep and wide trees, and data that is no tree, on
// a store, and tells what it counted. How to copy is the caller's.
#![tactic(auto)]

pub mod seen;
mod shapes;
pub mod told;
pub mod tour;
