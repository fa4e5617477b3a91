// The rows of what reading leaves: the nodes of a script and its tables.
use super::node_rows::{Named, add_nodes};
use layout::{Constructor, Definition, Function, Tables, TypeForm, TypeNode, Word};
use parser::Script;
use std::alloc::{AllocError, Global};
use std::fmt;

// An entry of a table as its row.
#[derive(Clone, Copy)]
struct Row<T>(T);

impl fmt::Display for Row<TypeForm> {
    fn fmt<W: fmt::Write>(&self, f: &mut fmt::Formatter<W>) -> fmt::Result {
        match self.0 {
            TypeForm::Unused => f.write_str("unused"),
            TypeForm::Int => f.write_str("int"),
            TypeForm::Bool => f.write_str("bool"),
            TypeForm::Sym => f.write_str("sym"),
            TypeForm::Unit => f.write_str("unit"),
            TypeForm::Datatype(size) => write!(f, "datatype {size}"),
            TypeForm::Function => f.write_str("function"),
        }
    }
}

impl fmt::Display for Row<TypeNode> {
    fn fmt<W: fmt::Write>(&self, f: &mut fmt::Formatter<W>) -> fmt::Result {
        let node = self.0;
        write!(f, "type {} {} {}\n", node.place, node.past, Row(node.form))
    }
}

impl fmt::Display for Row<Constructor> {
    fn fmt<W: fmt::Write>(&self, f: &mut fmt::Formatter<W>) -> fmt::Result {
        let c = self.0;
        write!(
            f,
            "constructor {} {} {} ",
            c.place,
            Named(c.name),
            c.datatype
        )?;
        write!(f, "{} {} {}\n", c.first, c.past, c.fields)
    }
}

impl fmt::Display for Row<Definition> {
    fn fmt<W: fmt::Write>(&self, f: &mut fmt::Formatter<W>) -> fmt::Result {
        match self.0 {
            Definition::Unused => f.write_str("unused\n"),
            Definition::Datatype(d) => {
                write!(
                    f,
                    "datatype {} {} {} {}\n",
                    d.place,
                    Named(d.name),
                    d.first,
                    d.past
                )
            }
            Definition::Annotation(d) => {
                write!(f, "annotation {} {} {}\n", d.place, Named(d.name), d.root)
            }
            Definition::Define(d) => {
                write!(f, "define {} {} ", d.place, Named(d.name))?;
                write!(f, "{} {} {}\n", d.first, d.past, d.body)
            }
            Definition::Val(d) => write!(f, "val {} {} {}\n", d.place, Named(d.name), d.body),
        }
    }
}

impl fmt::Display for Row<Word> {
    fn fmt<W: fmt::Write>(&self, f: &mut fmt::Formatter<W>) -> fmt::Result {
        write!(f, "parameter {}\n", Named(self.0))
    }
}

impl fmt::Display for Row<Option<u16>> {
    fn fmt<W: fmt::Write>(&self, f: &mut fmt::Formatter<W>) -> fmt::Result {
        match self.0 {
            Some(number) => write!(f, "{number}"),
            None => f.write_str("-"),
        }
    }
}

impl fmt::Display for Row<Function> {
    fn fmt<W: fmt::Write>(&self, f: &mut fmt::Formatter<W>) -> fmt::Result {
        let function = self.0;
        let annotation = Row(function.annotation);
        let define = Row(function.define);
        write!(
            f,
            "function {} {annotation} {define}\n",
            Named(function.name)
        )
    }
}

// The first `count` entries of a table.
fn add_rows<T: Copy>(
    heap: Global,
    rows: &mut String,
    entries: &[T],
    count: usize,
) -> Result<(), AllocError>
where
    Row<T>: fmt::Display,
{
    for entry in entries.iter().take(count) {
        rows.push_str(format!(in heap; "{}", Row(*entry))?.as_str())?;
    }
    Ok(())
}

pub fn rows_of(heap: Global, script: &Script<'_>) -> Result<String, AllocError> {
    let mut rows = String::new(heap);
    add_nodes(heap, &mut rows, script.nodes())?;
    let tables = script.tables();
    let counts = tables.counts;
    add_rows(heap, &mut rows, &tables.definitions, counts.definitions)?;
    add_rows(heap, &mut rows, &tables.constructors, counts.constructors)?;
    add_rows(heap, &mut rows, &tables.parameters, counts.parameters)?;
    add_rows(heap, &mut rows, &tables.types, counts.types)?;
    add_rows(
        heap,
        &mut rows,
        &tables.functions.entries,
        tables.functions.count,
    )?;
    Ok(rows)
}
