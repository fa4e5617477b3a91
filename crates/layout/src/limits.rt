// Limits of a script that more than one crate knows.

// The most nodes.
pub const NODES: usize = 4096;

// How deep expressions and types nest: the most brackets that are open in a text.
pub const DEPTH: usize = 64;
