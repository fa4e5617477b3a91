// Data in a store: what a value stands for, and the walks over it. No walk recurses or takes memory: its work list is
// threaded through the spare numbers of the cells that it walks.
#![tactic(auto)]

pub mod copies;
pub mod drops;
pub mod laws;
pub mod refusals;
pub mod sizes;
pub mod todo;
pub mod unfinished;
pub mod visit;
pub mod work_list;
