// What a script declares: its datatypes, its functions and its vals.
use super::size::{Size, size_at};
use super::types::Types;
use explain::shown;
use layout::{Constructor, DEPTH, Datatype, Definition, Function, Tables, Val};
use names::part;
use parser::Script;
use std::io;

fn print_constructor(
    rt: &HostRuntime,
    script: &Script<'_>,
    constructor: &Constructor,
) -> io::Result<()> {
    let name = shown(rt.alloc(), part(script.text(), constructor.name))?;
    let mut fields = String::new(rt.alloc());
    let types = Types::new(rt.alloc(), script);
    types.push_all(
        &mut fields,
        constructor.first as usize,
        constructor.past as usize,
        DEPTH,
    )?;
    println!(rt; "  {name} ({fields})")
}

fn print_datatype(rt: &HostRuntime, script: &Script<'_>, datatype: &Datatype) -> io::Result<()> {
    let name = shown(rt.alloc(), part(script.text(), datatype.name))?;
    println!(rt; "datatype {name}")?;
    let (first, past) = (datatype.first as usize, datatype.past as usize);
    for constructor in script.tables().constructors.iter().take(past).skip(first) {
        print_constructor(rt, script, constructor)?;
    }
    Ok(())
}

fn print_val(rt: &HostRuntime, script: &Script<'_>, val: &Val) -> io::Result<()> {
    let name = shown(rt.alloc(), part(script.text(), val.name))?;
    let size = size_at(script.nodes(), val.body);
    println!(rt; "val {name}: {size}")
}

// The definition with a number, where there is one.
fn definition_at(tables: &Tables, number: Option<u16>) -> Definition {
    number
        .and_then(|k| tables.definitions.get(k as usize).copied())
        .unwrap_or(Definition::Unused)
}

// The type and the number of nodes of a function, or what is missing.
fn print_function(rt: &HostRuntime, script: &Script<'_>, function: &Function) -> io::Result<()> {
    let name = shown(rt.alloc(), part(script.text(), function.name))?;
    let tables = script.tables();
    let mut words = String::new(rt.alloc());
    match definition_at(tables, function.annotation) {
        Definition::Annotation(annotation) => Types::new(rt.alloc(), script).push(
            &mut words,
            annotation.root as usize,
            DEPTH,
        )?,
        _ => words.push_str("no annotation")?,
    }
    match definition_at(tables, function.define) {
        Definition::Define(define) => {
            let size = size_at(script.nodes(), define.body);
            println!(rt; "function {name}: {words}, {size}")
        }
        _ => println!(rt; "function {name}: {words}, no define"),
    }
}

fn print_summary(rt: &HostRuntime, script: &Script<'_>) -> io::Result<()> {
    let counts = script.tables().counts;
    let datatypes = counts.datatypes;
    let constructors = counts.constructors;
    let functions = script.tables().functions.count;
    let definitions = counts.bindings;
    let nodes = counts.nodes;
    println!(rt; "datatypes: {datatypes}, with constructors: {constructors}")?;
    println!(rt; "functions: {functions}")?;
    println!(rt; "defines and vals: {definitions}")?;
    println!(rt; "nodes: {nodes}")
}

// Prints what a script declares: datatypes and vals in the order of the text, functions as they were first named.
pub fn print_declared(rt: &HostRuntime, script: &Script<'_>) -> io::Result<()> {
    let tables = script.tables();
    for definition in &tables.definitions {
        if let Definition::Datatype(datatype) = definition {
            print_datatype(rt, script, datatype)?;
        }
    }
    for definition in &tables.definitions {
        if let Definition::Val(val) = definition {
            print_val(rt, script, val)?;
        }
    }
    let functions = &tables.functions;
    for function in functions.entries.iter().take(functions.count) {
        print_function(rt, script, function)?;
    }
    print_summary(rt, script)
}
