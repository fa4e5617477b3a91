// Definitions, read into the tables and the node list.
// `Bounded` stays in the contracts: `Tables` is a public type that anybody may write, and the bound holds of tables that are being filled.
// The place, what stands inside and the tables stay parameters, each a loan or a number of its own; `goes` stands on each reader, in one word,
// for the definition behind it.
ghost use Rattle.std.specs.Prelude.{◌≡◌, ℕ, ◌<◌, ◌≤◌, List, length, slice_set};
ghost use Rattle.grammar.specs.Forms.{datatype_form_rule, annotation_form_rule, define_form_rule, val_form_rule};
ghost use Rattle.grammar.specs.Reading.{read_expr, read_definition_form, read_definition};
ghost use Rattle.grammar.specs.Sexps.{Sexp, nil, cons};
ghost use Rattle.forms.specs.Drafts.{encode};
ghost use Rattle.forms.specs.Parts.{OnList};
ghost use Rattle.forms.specs.Progress.{Goes};
ghost use Rattle.layout.specs.declared.node.Node.{Node};
ghost use Rattle.parser.specs.Defining.{Bounded, GoesDefinition, OnParts, OnDefinition, AtEnd, GoesDefinitions, OnDefinitions};

use super::constructors::constructor_list;
use super::functions::Given;
use super::kind::{DefinitionKind, definition_of};
use super::mark::Mark;
use super::parameters::parameter_list;
use super::types::type_at;
use forms::{
    Look, Source, Spot, behind, end_at, expression, look_at, name_at, opening_at, over_limit, wrong,
};
use layout::{Annotation, Counts, DEPTH, Datatype, Define, Definition, Half, Node, Tables, Val};
use text::Refused;

// The most defines and vals of a script, together.
const BINDINGS: usize = 256;

// The most datatypes of a script.
const DATATYPES: usize = 64;

// One definition more, with what is used then.
fn add(tables: &mut Tables, definition: Definition, counts: Counts)
    requires { tables.old.counts.definitions < 832 }
    ensures { tables.new ≡ record tables.old { counts = counts; definitions = slice_set tables.old.definitions tables.old.counts.definitions definition } }
{
    tables.definitions[tables.counts.definitions] = definition;
    tables.counts = counts;
}

// The expression that ends a definition.
fn body(source: &Source, spot: Spot, nodes: &mut [Node]) -> Result<Spot, Refused>
    ensures goes { Goes source.now.text.now spot result }
    ensures told { (e : Sexp) → OnList source.now.text.now spot nodes.old encode (cons e nil) (read_expr (length nodes.old) 64 e) result nodes.new }
{
    let end = expression(source, spot, nodes, DEPTH)?;
    let after = end_at(source.text, end.place)?;
    Ok(Spot {
        place: after,
        ..end
    })
}

// The val that begins at a place, from its name on.
fn val_binding(
    source: &Source,
    place: u16,
    inside: usize,
    nodes: &mut [Node],
    tables: &mut Tables,
) -> Result<usize, Refused>
    requires { Bounded tables.old }
    ensures goes { GoesDefinition source.now.text.now inside result tables.new }
    ensures told { (x e : Sexp) → OnParts source.now.text.now inside tables.old nodes.old (cons x (cons e nil)) (read_definition_form (length nodes.old) place (val_form_rule x e)) result tables.new nodes.new }
{
    let counts = tables.counts;
    if counts.bindings >= BINDINGS {
        return Err(over_limit(place as usize));
    }
    let name = name_at(source.text, inside)?;
    let first = Spot {
        place: name.after,
        used: counts.nodes,
    };
    let end = body(source, first, nodes)?;
    let val = Val {
        place,
        name: name.word(),
        body: counts.nodes as u16,
    };
    let used = Counts {
        nodes: end.used,
        definitions: counts.definitions + 1,
        bindings: counts.bindings + 1,
        ..counts
    };
    add(tables, Definition::Val(val), used);
    Ok(end.place)
}

// The define that begins at a place, from its name on.
fn function_definition(
    source: &Source,
    place: u16,
    inside: usize,
    nodes: &mut [Node],
    tables: &mut Tables,
) -> Result<usize, Refused>
    requires { Bounded tables.old }
    ensures goes { GoesDefinition source.now.text.now inside result tables.new }
    ensures told { (x ps e : Sexp) → OnParts source.now.text.now inside tables.old nodes.old (cons x (cons ps (cons e nil))) (read_definition_form (length nodes.old) place (define_form_rule x ps e)) result tables.new nodes.new }
{
    let counts = tables.counts;
    if counts.bindings >= BINDINGS {
        return Err(over_limit(place as usize));
    }
    let name = name_at(source.text, inside)?;
    let word = name.word();
    let first = Spot {
        place: name.after,
        used: counts.parameters,
    };
    let middle = parameter_list(source, first, &mut tables.parameters)?;
    let second = Spot {
        place: middle.place,
        used: counts.nodes,
    };
    let end = body(source, second, nodes)?;
    let define = Define {
        place,
        name: word,
        first: counts.parameters as u16,
        past: middle.used as u16,
        body: counts.nodes as u16,
    };
    let used = Counts {
        nodes: end.used,
        definitions: counts.definitions + 1,
        bindings: counts.bindings + 1,
        parameters: middle.used,
        ..counts
    };
    let given = Given {
        text: source.text,
        half: Half::Define,
        name: word,
    };
    given.note(&mut tables.functions, counts.definitions as u16);
    add(tables, Definition::Define(define), used);
    Ok(end.place)
}

// The annotation that begins at a place, from its name on.
fn type_annotation(
    source: &Source,
    place: u16,
    inside: usize,
    tables: &mut Tables,
) -> Result<usize, Refused>
    requires { Bounded tables.old }
    ensures goes { GoesDefinition source.now.text.now inside result tables.new }
    ensures told { (entries : ℕ) (ns : List Node) (x t : Sexp) → OnParts source.now.text.now inside tables.old ns (cons x (cons t nil)) (read_definition_form entries place (annotation_form_rule x t)) result tables.new ns }
{
    let counts = tables.counts;
    let name = name_at(source.text, inside)?;
    let word = name.word();
    let first = Spot {
        place: name.after,
        used: counts.types,
    };
    let end = type_at(source, first, &mut tables.types, DEPTH)?;
    let after = end_at(source.text, end.place)?;
    let annotation = Annotation {
        place,
        name: word,
        root: counts.types as u16,
    };
    let used = Counts {
        types: end.used,
        definitions: counts.definitions + 1,
        ..counts
    };
    let given = Given {
        text: source.text,
        half: Half::Annotation,
        name: word,
    };
    given.note(&mut tables.functions, counts.definitions as u16);
    add(tables, Definition::Annotation(annotation), used);
    Ok(after)
}

// The datatype that begins at a place, from its name on.
fn datatype_definition(
    source: &Source,
    place: u16,
    inside: usize,
    tables: &mut Tables,
) -> Result<usize, Refused>
    requires { Bounded tables.old }
    ensures goes { GoesDefinition source.now.text.now inside result tables.new }
    ensures told { (entries : ℕ) (ns : List Node) (x cs : Sexp) → OnParts source.now.text.now inside tables.old ns (cons x (cons cs nil)) (read_definition_form entries place (datatype_form_rule x cs)) result tables.new ns }
{
    let counts = tables.counts;
    if counts.datatypes >= DATATYPES {
        return Err(over_limit(place as usize));
    }
    let name = name_at(source.text, inside)?;
    let first = Mark {
        place: name.after,
        types: counts.types,
        constructors: counts.constructors,
    };
    let number = counts.definitions as u16;
    let end = constructor_list(
        source,
        first,
        number,
        &mut tables.types,
        &mut tables.constructors,
    )?;
    let after = end_at(source.text, end.place)?;
    let datatype = Datatype {
        place,
        name: name.word(),
        first: counts.constructors as u16,
        past: end.constructors as u16,
    };
    let used = Counts {
        types: end.types,
        definitions: counts.definitions + 1,
        datatypes: counts.datatypes + 1,
        constructors: end.constructors,
        ..counts
    };
    add(tables, Definition::Datatype(datatype), used);
    Ok(after)
}

// The definition that stands next.
fn definition(
    source: &Source,
    place: usize,
    nodes: &mut [Node],
    tables: &mut Tables,
) -> Result<usize, Refused>
    requires { Bounded tables.old }
    ensures goes { GoesDefinition source.now.text.now place result tables.new }
    ensures told { OnDefinition source.now.text.now place tables.old nodes.old (read_definition (length nodes.old)) result tables.new nodes.new }
{
    let opened = opening_at(source.text, place)?;
    let at = opened.place as u16;
    let first = behind(source.text, opened.inside);
    // A closed enum, each case its own rule.
    match definition_of(source.survey(opened.inside)).ok_or(wrong(opened.place))? {
        DefinitionKind::Datatype => datatype_definition(source, at, first, tables),
        DefinitionKind::Annotation => type_annotation(source, at, first, tables),
        DefinitionKind::Define => function_definition(source, at, first, nodes, tables),
        DefinitionKind::Val => val_binding(source, at, first, nodes, tables),
    }
}

// Whether no token is left.
fn is_end(text: &[u8], place: usize) -> bool
    ensures { AtEnd text.now place result }
{
    look_at(text, place) == Look::End
}

// All definitions of the text.
pub(crate) fn definitions(
    source: &Source,
    nodes: &mut [Node],
    tables: &mut Tables,
) -> Result<(), Refused>
    requires { Bounded tables.old }
    ensures goes { GoesDefinitions result tables.new }
    ensures told { OnDefinitions source.now.text.now (length nodes.old) 0 tables.old nodes.old result tables.new nodes.new }
{
    // Definitions are followed: the place is where the last one ended, and no index.
    let mut at = 0;
    'definitions: loop {
        if is_end(source.text, at) {
            return Ok(());
        }
        at = definition(source, at, nodes, tables)?;
    }
}
