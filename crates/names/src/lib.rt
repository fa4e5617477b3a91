// An index of names: each is a part of a text, and is found by its bytes without a look at the others.
#![tactic(auto)]

mod index;
mod parts;

pub use index::Index;
pub use parts::{cut, part, sum};
