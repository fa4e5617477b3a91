// The symbols of a node list: each gets the place of the first literal with the same bytes.
#![tactic(auto)]

mod bytes;
mod index;
mod literal;
mod numbering;

pub use numbering::number_symbols;
