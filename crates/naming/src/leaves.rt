// Literals and names.
ghost use Rattle.std.specs.Prelude.{◌≡◌, ℕ, ◌-◌, ◌<◌, ◌≤◌, true, cond, length, Ok, slice_set};
ghost use Rattle.naming.specs.Judges.{desk, Kept, Setting, vals_of, OnForm, OnGlobal};
ghost use Rattle.naming.specs.Leaves.{datatype_kind};
ghost use Rattle.layout.specs.declared.node.NodeForm.TheVariants as form;
ghost use Rattle.grammar.specs.Trees.{Script};
ghost use Rattle.program.specs.Compiling.{code};
ghost use Rattle.program.specs.Programs.{program, global_of};
ghost use Rattle.typing.specs.Judging as judging;
ghost use Rattle.typing.specs.Judging.{dup_global};

use super::reads::{mismatch, node_at, note, val_at};
use super::world::World;
use globals::{Global, refused};
use layout::{Node, Word};
use names::part;
use program::{Code, Op};
use scopes::{Local, Scope, find, local_at};
use script_refusals::{Refusal, Refused};
use type_rows::ValueType;

// A literal.
pub fn literal(
    codes: &mut [Code],
    i: usize,
    node: Node,
    op: Op,
    kind: ValueType,
) -> Result<ValueType, Refused>
    ensures value { result ≡ Ok kind }
    ensures codes { codes.new ≡ slice_set codes.old i (code op node.place node.past) }
{
    note(codes, i, node, op);
    Ok(kind)
}

// How far an entry lies below the newest one.
fn distance(height: usize, entry: usize) -> u16
    ensures { height ≤ 65536 → result ≡ height - 1 - entry }
{
    height.saturating_sub(1).saturating_sub(entry).min(65535) as u16
}

fn is_datatype(kind: ValueType) -> bool
    ensures { result ≡ datatype_kind kind }
{
    matches!(kind, ValueType::Datatype(_))
}

// A local that is entered is consumed, if its type is a datatype.
fn consume(scope: &mut Scope, k: usize, kind: ValueType)
    ensures depth { scope.new.depth ≡ scope.old.depth }
    ensures marks { scope.new.marks ≡ cond (datatype_kind kind) (slice_set scope.old.marks k true) scope.old.marks }
{
    if is_datatype(kind) {
        scope.mark(k);
    }
}

// A name that no local has.
fn global_name(
    world: &World<'_>,
    i: usize,
    node: Node,
    name: &[u8],
    codes: &mut [Code],
) -> Result<ValueType, Refused>
    ensures { OnGlobal world.now name.now i node codes.old result codes.new }
{
    let unknown = refused(Refusal::Unknown, node.place);
    let global = world.globals.named(world.text, name).ok_or(unknown)?;
    match global {
        Global::Function(n) => {
            note(codes, i, node, Op::Function(n));
            Ok(world.globals.function_type(n))
        }
        Global::Constructor(_) => Err(mismatch(node.place)),
        Global::Val(k) => {
            let kind = val_at(world.vals, k).ok_or(unknown)?;
            note(codes, i, node, Op::Val(k));
            Ok(kind)
        }
    }
}

// A name that is entered.
pub fn name(
    world: &World<'_>,
    i: usize,
    size: u8,
    height: usize,
    scope: &mut Scope,
    locals: &[Local],
    codes: &mut [Code],
) -> Result<ValueType, Refused>
    ensures kept { Kept (desk scope.old locals.now) (desk scope.new locals.now) }
    ensures answers { OnForm world.now (form.Name size) i height (desk scope.old locals.now) codes.old result (desk scope.new locals.now) codes.new }
{
    let node = node_at(world.nodes, i);
    let name = part(
        world.text,
        Word {
            place: node.place,
            size,
        },
    );
    let Some(k) = find(world.text, locals, scope.depth, name) else {
        return global_name(world, i, node, name, codes);
    };
    if scope.is_marked(k) {
        return Err(refused(Refusal::Consumed, node.place));
    }
    let local = local_at(locals, k);
    consume(scope, k, local.kind);
    note(codes, i, node, Op::Local(distance(height, local.height)));
    Ok(local.kind)
}

// Why a name that no local has is not dupped, in a form at a place.
fn no_dup(world: &World<'_>, place: u16, word: Word, name: &[u8]) -> Refused
    ensures { (script : Script) → Setting world.now script → dup_global (vals_of world.now script) place word.place (global_of (program script) name.now) ≡ judging.refused result }
{
    match world.globals.named(world.text, name) {
        Some(Global::Val(k)) if val_at(world.vals, k).is_none() => {
            refused(Refusal::Unknown, word.place)
        }
        Some(_) => mismatch(place),
        None => refused(Refusal::Unknown, word.place),
    }
}

// A name that is dupped.
pub fn dup(
    world: &World<'_>,
    i: usize,
    word: Word,
    height: usize,
    scope: &Scope,
    locals: &[Local],
    codes: &mut [Code],
) -> Result<ValueType, Refused>
    ensures { OnForm world.now (form.Dup word) i height (desk scope.now locals.now) codes.old result (desk scope.now locals.now) codes.new }
{
    let node = node_at(world.nodes, i);
    let name = part(world.text, word);
    // Tried: by ok_or_else the proof didn't close.
    let Some(k) = find(world.text, locals, scope.depth, name) else {
        return Err(no_dup(world, node.place, word, name));
    };
    if scope.is_marked(k) {
        return Err(refused(Refusal::Consumed, word.place));
    }
    let local = local_at(locals, k);
    note(codes, i, node, Op::Dup(distance(height, local.height)));
    Ok(local.kind)
}
