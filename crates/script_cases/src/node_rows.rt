// The rows of a script's nodes.
use layout::{Node, NodeForm, Word};
use std::alloc::{AllocError, Global};
use std::fmt;

// A name by its place and size.
#[derive(Clone, Copy)]
pub struct Named(pub Word);

impl fmt::Display for Named {
    fn fmt<W: fmt::Write>(&self, f: &mut fmt::Formatter<W>) -> fmt::Result {
        write!(f, "{} {}", self.0.place, self.0.size)
    }
}

// A form with what it carries.
#[derive(Clone, Copy)]
struct Form(NodeForm);

impl fmt::Display for Form {
    fn fmt<W: fmt::Write>(&self, f: &mut fmt::Formatter<W>) -> fmt::Result {
        match self.0 {
            NodeForm::Unused => f.write_str("unused"),
            NodeForm::Integer(n) => write!(f, "integer {n}"),
            NodeForm::Symbol(place) => write!(f, "symbol {place}"),
            NodeForm::Boolean(b) => write!(f, "boolean {b}"),
            NodeForm::Unit => f.write_str("unit"),
            NodeForm::Name(size) => write!(f, "name {size}"),
            NodeForm::If => f.write_str("if"),
            NodeForm::Begin => f.write_str("begin"),
            NodeForm::Let => f.write_str("let"),
            NodeForm::Case => f.write_str("case"),
            NodeForm::Dup(word) => write!(f, "dup {}", Named(word)),
            NodeForm::Apply => f.write_str("apply"),
            NodeForm::Binding(word) => write!(f, "binding {}", Named(word)),
            NodeForm::Branch(place) => write!(f, "branch {place}"),
        }
    }
}

pub fn add_nodes(heap: Global, rows: &mut String, nodes: &[Node]) -> Result<(), AllocError> {
    for node in nodes {
        let row = format!(in heap; "node {} {} {}\n", node.place, node.past, Form(node.form))?;
        rows.push_str(row.as_str())?;
    }
    Ok(())
}
