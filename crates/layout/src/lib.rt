// How a script lies in memory: its expressions in a node list, its types and names in tables. Definitions and laws; the reader that
// fills the tables is a layer above.
#![tactic(auto)]

mod counts;
mod definition;
mod function;
mod laws;
mod limits;
mod node;
mod tables;
mod type_node;
mod word;

pub use counts::Counts;
pub use definition::{Annotation, Constructor, Datatype, Define, Definition, Val};
pub use function::{Function, Functions, Half};
pub use laws::layout_stands;
pub use limits::{DEPTH, NODES};
pub use node::{Node, NodeForm};
pub use tables::Tables;
pub use type_node::{TypeForm, TypeNode};
pub use word::Word;
