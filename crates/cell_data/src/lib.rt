// A copy of data that leaves nothing behind where it cannot go on; the other walks are those of `data`.
#![tactic(auto)]

pub mod copies;
