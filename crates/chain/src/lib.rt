// The chain store: cells over lent slots whose free ones are linked, so that every call takes constant time.
#![tactic(auto)]

pub mod slots;
pub mod store;
