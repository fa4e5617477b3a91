// Cells: the values that a cell holds, the record that it is, and what a store of cells means.
#![tactic(auto)]

pub mod kinds;
pub mod laws;
pub mod lent;
pub mod record_methods;
pub mod records;
pub mod refusals;
pub mod store;
pub mod values;
