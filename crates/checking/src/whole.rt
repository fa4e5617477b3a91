// The bodies of a script, in text order.
ghost use Rattle.std.specs.Prelude.{◌≡◌, ◌∷◌, codes};
ghost use Rattle.checking.specs.Drafting.{Setting, Underway, Judges};
ghost use Rattle.checking.specs.Whole.{BodiesAnswer};
ghost use Rattle.globals.specs.Known.{Known};
ghost use Rattle.globals.specs.Lying.{definition_at, Laid};
ghost use Rattle.grammar.specs.Trees as tree;
ghost use Rattle.grammar.specs.Trees.{Script};
ghost use Rattle.layout.specs.Scripts.{ScriptStands};
ghost use Rattle.layout.specs.declared.counts.Counts.{Counts};
ghost use Rattle.program.specs.Programs.{program, first_of};
ghost use Rattle.program.specs.Whole.{define_number};
ghost use Rattle.typing.specs.Verdict.{accepted, main_stands};

use super::defines::{check_define, check_val};
use super::draft::Draft;
use basis::Basis;
use globals::{Global, Globals, definitions};
use layout::{Definition, Node, Tables};
use naming::World;
use program::Compiled;
use script_refusals::Refused;

// A script that was read, and what is known of the whole of it.
#[derive(Clone, Copy)]
pub(crate) struct Parsed<'a> {
    pub(crate) text: &'a [u8],
    pub(crate) nodes: &'a [Node],
    pub(crate) tables: &'a Tables,
    pub(crate) globals: &'a Globals,
}

// The body of one definition.
fn check_one(parsed: &Parsed<'_>, definition: Definition, draft: &mut Draft) -> Result<(), Refused>
    ensures { (script : Script) (c : Counts) (d : tree.Definition) (ds : Script) → Setting parsed.now.text.now parsed.now.nodes.now parsed.now.tables.now parsed.now.globals.now script → definition ≡ definition_at parsed.now.text.now parsed.now.tables.now c.definitions
        → Underway parsed.now.text.now parsed.now.nodes.now parsed.now.tables.now parsed.now.globals.now script c (d ∷ ds) draft.old → Judges parsed.now.text.now parsed.now.nodes.now parsed.now.tables.now parsed.now.globals.now script c d ds draft.old result draft.new }
{
    let world = World {
        text: parsed.text,
        nodes: parsed.nodes,
        globals: parsed.globals,
        vals: &draft.kinds[..draft.val_count.min(256)],
    };
    match definition {
        Definition::Define(define) => {
            let kind = parsed.globals.define_type(draft.define_count);
            check_define(&world, parsed.tables, define, kind, &mut draft.code)?;
            draft.add_define(define);
        }
        Definition::Val(val) => {
            let kind = check_val(&world, val, &mut draft.code)?;
            draft.add_val(val, kind);
        }
        Definition::Unused | Definition::Datatype(_) | Definition::Annotation(_) => {}
    }
    Ok(())
}

// The number of the define `main`.
fn main_of(parsed: &Parsed<'_>) -> u16
    ensures { (script : Script) → Known parsed.now.text.now parsed.now.globals.now script → main_stands (program script) (first_of (λ d. d.name) (codes "main") (program script).defines) ≡ accepted → result ≡ define_number (codes "main") (program script).defines }
{
    let Some(main) = parsed.globals.named(parsed.text, b"main") else {
        return 0;
    };
    match main {
        Global::Function(n) => n.saturating_sub(Basis::COUNT as u16),
        Global::Constructor(_) | Global::Val(_) => 0,
    }
}

// The bodies in text order: the code of the script, or the first refusal.
pub(crate) fn check_bodies(
    text: &[u8],
    nodes: &[Node],
    tables: &Tables,
    globals: &Globals,
) -> Result<Compiled, Refused>
    ensures { (script : Script) → Setting text.now nodes.now tables.now globals.now script → Laid text.now tables.now script → ScriptStands text.now nodes.now tables.now script
        → main_stands (program script) (first_of (λ d. d.name) (codes "main") (program script).defines) ≡ accepted → BodiesAnswer script result }
{
    let parsed = Parsed {
        text,
        nodes,
        tables,
        globals,
    };
    let mut draft = Draft::new();
    for &definition in definitions(tables) {
        check_one(&parsed, definition, &mut draft)?;
    }
    let main = main_of(&parsed);
    Ok(draft.finish(main))
}
