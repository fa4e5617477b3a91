// Each annotation has a define, and each define an annotation, whose type is the define's.
ghost use Rattle.std.specs.Prelude.{◌≡◌, ◌+◌, ◌<◌, ◌≤◌, length, IfOk};
ghost use Rattle.globals.specs.Lying.{DefinitionLies, Laid};
ghost use Rattle.globals.specs.Names.{Named};
ghost use Rattle.globals.specs.Pairs.{HasType, PairsOne, ArePaired};
ghost use Rattle.grammar.specs.Trees.{Ident, Script};
ghost use Rattle.grammar.specs.Trees as tree;
ghost use Rattle.globals.specs.Tallies.{told};
ghost use Rattle.layout.specs.Spelling.{Spells};
ghost use Rattle.layout.specs.declared.counts.Counts.{Counts};
ghost use Rattle.layout.specs.declared.tables.Tables.{Tables};
ghost use Rattle.program.specs.Programs.{program, first_of};
ghost use Rattle.type_rows.specs.TypeExprs.{types_listed, meaning, HasRows};
ghost use Rattle.typing.specs.Verdict.{accepted, found};

use super::declarations::Declarations;
use super::define_types::DefineTypes;
use super::refusing::refused;
use super::tables::{Parsed, definitions};
use entries::put;
use layout::{Definition, Word};
use names::part;
use script_refusals::{Refusal, Refused};
use type_rows::{Rows, ValueType};

// The type that a define's name is annotated with.
fn define_type(
    text: &[u8],
    declared: &Declarations,
    rows: &Rows,
    name: Word,
) -> Result<ValueType, Refused>
    ensures { (script : Script) (x : Ident) → Named text.now declared.now script → HasRows (program script) (types_listed script) rows.now.rows → length (types_listed script) ≤ 512 → Spells text.now name x
        → HasType (program script) (meaning (program script) (types_listed script)) rows.now.rows x result }
{
    let root = declared
        .annotation(text, part(text, name))
        .ok_or(refused(Refusal::Unpaired, name.place))?;
    Ok(rows.kind(root))
}

// The define of an annotation's name has to be there.
fn need_define(text: &[u8], declared: &Declarations, name: Word) -> Result<(), Refused>
    ensures { (script : Script) (x : Ident) → Named text.now declared.now script → Spells text.now name x → told result accepted ≡ found Refusal.Unpaired x.place (first_of (λ d. d.name) x.bytes (program script).defines) }
{
    if declared.has_define(text, part(text, name)) {
        return Ok(());
    }
    Err(refused(Refusal::Unpaired, name.place))
}

// One definition, behind so many defines: how many there are then.
fn pair_one(
    text: &[u8],
    declared: &Declarations,
    rows: &Rows,
    definition: Definition,
    types: &mut DefineTypes,
    defines: usize,
) -> Result<usize, Refused>
    requires { defines < 65536 }
    ensures few { IfOk result (λ n. n ≤ defines + 1) }
    ensures pairs { (tables : Tables) (script : Script) (c : Counts) (d : tree.Definition) → Named text.now declared.now script → HasRows (program script) (types_listed script) rows.now.rows → length (types_listed script) ≤ 512 → DefinitionLies text.now tables c d definition
        → PairsOne (program script) (meaning (program script) (types_listed script)) rows.now.rows defines d types.old.types result types.new.types }
{
    match definition {
        Definition::Annotation(annotation) => {
            need_define(text, declared, annotation.name)?;
            Ok(defines)
        }
        Definition::Define(define) => {
            let kind = define_type(text, declared, rows, define.name)?;
            put(&mut types.types, defines, kind);
            Ok(defines + 1)
        }
        _ => Ok(defines),
    }
}

// The types of all defines; the first definition in text order that lacks its other half is refused.
pub(crate) fn pair(
    parsed: &Parsed<'_>,
    declared: &Declarations,
    rows: &Rows,
) -> Result<DefineTypes, Refused>
    ensures { (script : Script) → Laid parsed.now.text.now parsed.now.tables.now script → Named parsed.now.text.now declared.now script → HasRows (program script) (types_listed script) rows.now.rows
        → ArePaired (program script) script (meaning (program script) (types_listed script)) rows.now result }
{
    let mut types = DefineTypes {
        types: [ValueType::Unit; 256],
    };
    // Only defines are counted, and a refusal may come between two.
    let mut defines: usize = 0;
    for &definition in definitions(parsed.tables) {
        defines = pair_one(parsed.text, declared, rows, definition, &mut types, defines)?;
    }
    Ok(types)
}
