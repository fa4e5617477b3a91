// The types of a script: names in them are those of datatypes, and go by their numbers from then on.
ghost use Rattle.std.specs.Prelude.{◌≡◌, ℕ, ◌<◌, ◌≤◌, List, length, max, suc, ◌+◌};
ghost use Rattle.globals.specs.Lying.{TypesLaid, type_at};
ghost use Rattle.globals.specs.Types.{HasDatatypes, IsShape, HasParts, IsResolved};
ghost use Rattle.grammar.specs.Trees.{TypeExpr, TypeExprs, function_type_rule, Script};
ghost use Rattle.program.specs.Programs.{Program};
ghost use Rattle.type_rows.specs.TypeExprs.{types_listed, row_of_result, expr_at};

use super::declarations::Declarations;
use super::refusing::refused;
use super::tables::{Parsed, type_at};
use layout::{Tables, TypeForm, Word};
use names::part;
use script_refusals::{Refusal, Refused};
use type_rows::{Row, Rows, Shape};

// The most type expressions.
const TYPES: usize = 512;

// The parts of a function type: how many parameters it has, and the row of its result type.
#[derive(Clone, Copy)]
struct Parts {
    count: u16,
    result: u16,
}

// The number of the type node after one and its parts.
fn after(tables: &Tables, at: u16) -> usize
    ensures value { result ≡ max (type_at tables.now at).past (at + 1) }
    ensures rises { at < result }
{
    (type_at(tables, at).past as usize).max(at as usize + 1)
}

fn parts_of(tables: &Tables, k: u16) -> Parts
    ensures { (text : List ℕ) (script : Script) (p : ℕ) (ts : TypeExprs) (t : TypeExpr) → TypesLaid text tables.now (types_listed script) → k < length (types_listed script) → expr_at (types_listed script) k ≡ function_type_rule p ts t → HasParts k ts result }
{
    let past = type_at(tables, k).past as usize;
    let mut at = k.saturating_add(1);
    let mut count: u16 = 0;
    // A walk from part to part. A fold is no plainer: its state would be the last place and the count, and its end a place to look for.
    'parts: loop {
        let next = after(tables, at);
        if next >= past {
            return Parts { count, result: at };
        }
        at = next as u16;
        count += 1;
    }
}

// The shape of the type expression at a type node. No conversion of its form: a datatype's name is looked up, and may be refused.
fn shape_of(parsed: &Parsed<'_>, declared: &Declarations, k: u16) -> Result<Shape, Refused>
    ensures { (P : Program) (script : Script) → TypesLaid parsed.now.text.now parsed.now.tables.now (types_listed script) → HasDatatypes parsed.now.text.now declared.now P → k < length (types_listed script) → IsShape P (expr_at (types_listed script) k) result }
{
    let node = type_at(parsed.tables, k);
    match node.form {
        TypeForm::Int => Ok(Shape::Int),
        TypeForm::Bool => Ok(Shape::Bool),
        TypeForm::Sym => Ok(Shape::Sym),
        TypeForm::Unit => Ok(Shape::Unit),
        TypeForm::Datatype(size) => {
            let name = Word {
                place: node.place,
                size,
            };
            let number = declared
                .datatypes
                .find(parsed.text, part(parsed.text, name))
                .ok_or(refused(Refusal::Unknown, node.place))?;
            Ok(Shape::Datatype(number as u16))
        }
        TypeForm::Function => Ok(Shape::Function(parts_of(parsed.tables, k).count)),
        TypeForm::Unused => Ok(Shape::Unit),
    }
}

// The row of the result type, for a function type.
fn result_row(tables: &Tables, k: u16) -> u16
    ensures { (text : List ℕ) (script : Script) → TypesLaid text tables.now (types_listed script) → k < length (types_listed script) → result ≡ row_of_result k (expr_at (types_listed script) k) }
{
    match type_at(tables, k).form {
        TypeForm::Function => parts_of(tables, k).result,
        _ => 0,
    }
}

// The table of types of a script; the first name that is no datatype's is refused.
pub(crate) fn resolve(parsed: &Parsed<'_>, declared: &Declarations) -> Result<Rows, Refused>
    ensures { (P : Program) (script : Script) → TypesLaid parsed.now.text.now parsed.now.tables.now (types_listed script) → HasDatatypes parsed.now.text.now declared.now P → IsResolved P (types_listed script) result }
{
    let mut rows = Rows::new();
    let count = parsed.tables.counts.types.min(TYPES) as u16;
    // By number: it is the row's, and each row looks at the nodes behind its own.
    for k in 0..count {
        let row = Row {
            shape: shape_of(parsed, declared, k)?,
            past: type_at(parsed.tables, k).past,
            result: result_row(parsed.tables, k),
        };
        rows.put(k as usize, row);
    }
    Ok(rows)
}
