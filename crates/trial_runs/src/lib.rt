// Runs of checked scripts, cut into advances in any way, over each kind of store: what the programs that try them share.
#![tactic(auto)]

mod cutting;
mod found;
mod stores;
mod whole;

pub use cutting::{Cut, Cuts, Even};
pub use found::{Found, outcome_of};
pub use stores::{Kind, Trial, over};
pub use whole::{Lent, run_cut};
