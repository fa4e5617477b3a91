// The forms of a script as they stand in its text: what comes next, the parts of a list, names, patterns and expressions. Expressions are read into a node list.
#![tactic(auto)]

mod atoms;
mod counting;
mod expressions;
mod form;
mod names;
mod part_count;
mod patterns;
mod sight;
mod source;
mod spot;
mod survey;

pub use atoms::{over_limit, wrong};
pub use expressions::expression;
pub use names::{NameAt, name_at};
pub use sight::{Look, Opened, behind, closing_at, end_at, look_at, opening_at};
pub use source::Source;
pub use spot::Spot;
pub use survey::Survey;
