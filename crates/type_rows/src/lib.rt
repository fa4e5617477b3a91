// The types of a script as the check keeps them: each type expression is one row of a table, datatypes go by their numbers, and two types
// are compared without a look at the text. Behind the script's rows stand those of the functions of the basis.
#![tactic(auto)]

mod row;
mod rows;
mod shape;
mod signatures;
mod value_type;

pub use row::Row;
pub use rows::Rows;
pub use shape::Shape;
pub use signatures::basis_type;
pub use value_type::ValueType;
