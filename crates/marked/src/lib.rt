// The marked store: cells over lent slots, each of which is marked free or live; a free one is searched for.
#![tactic(auto)]

pub mod store;
