// Entering a name.
// `steady` is a clause of each row: what a call leaves as it was is no fact of one value.
ghost use Rattle.std.specs.Prelude.{◌≡◌, ℕ, List, Some};
ghost use Rattle.std.specs.List.{slice_get};
ghost use Rattle.cells.specs.Meaning.{Cells};
ghost use Rattle.grammar.specs.Trees.{Expr};
ghost use Rattle.machine.specs.Holding.{names, slot_left};
ghost use Rattle.machine.specs.Mirrors.{Mirrors, Moved, Steady};
ghost use Rattle.machine.specs.Waiting.{PlacedAt};
ghost use Rattle.program.specs.Programs.{Program, Name};
ghost use Rattle.program.specs.Scopes.{distance};
ghost use Rattle.rules.specs.States.{Environment, Account, st};
ghost use Rattle.rules.specs.States.{Frame as Waits, enter as enters};
ghost use Rattle.rules.specs.Steps.{Sizes, look, enter_name, dup_entered, val_entered};

use cell_data::copies::copy_value;
use cells::store::CellStore;
use cells::values::Value;
use machine::{Frame, Machine, Slot, val_at, value_at};
use rules::FaultKind;

// What a slot holds after its value was read: data is consumed.
fn left(value: Value) -> Slot
    ensures { result ≡ slot_left value }
{
    match value {
        Value::Cell(_) => None,
        _ => Some(value),
    }
}

// A local name: its value is finished, and data leaves it empty.
pub fn enter_local(machine: &mut Machine<'_, '_>, depth: u16) -> Result<(), FaultKind>
    ensures steady { Steady machine.old machine.new }
    ensures law { (P : Program) (Z : Sizes) (m₀ m : Cells) (K : List Waits) (env : Environment) (a : Account) (e : Expr) (w : Name) (p : ℕ)
        → Mirrors P Z m₀ (st K env (enters e) a) machine.old m → distance w (names env) ≡ Some depth
        → Moved P Z m₀ (st K env (enters e) a) (enter_name P Z p w K env a (look w env)) result machine.new m }
{
    let value = value_at(&machine.slots, depth as usize).ok_or(FaultKind::Stuck)?;
    machine.slots.replace_at_depth(depth as usize, left(value));
    machine.finish(value)
}

// A deep copy of a local name's value: one cell for each constructor.
pub fn enter_dup<S: CellStore>(
    machine: &mut Machine<'_, '_>,
    store: &mut S,
    depth: u16,
) -> Result<(), FaultKind>
    ensures steady { Steady machine.old machine.new }
    ensures law { (P : Program) (Z : Sizes) (m₀ : Cells) (K : List Waits) (env : Environment) (a : Account) (e : Expr) (w : Name)
        → Mirrors P Z m₀ (st K env (enters e) a) machine.old (S.CellStore.cells store.old) → distance w (names env) ≡ Some depth
        → Moved P Z m₀ (st K env (enters e) a) (dup_entered P Z K env a (look w env)) result machine.new (S.CellStore.cells store.new) }
{
    let value = value_at(&machine.slots, depth as usize).ok_or(FaultKind::Stuck)?;
    let before = store.live_count();
    let copy = copy_value(store, value)?;
    let count = store.live_count().saturating_sub(before);
    machine.taken = machine.taken.saturating_add(count as u64);
    machine.finish(copy)
}

// A val's name waits for the val's expression, which has no entries.
pub fn enter_val(machine: &mut Machine<'_, '_>, at: u16, number: u16) -> Result<(), FaultKind>
    ensures steady { Steady machine.old machine.new }
    ensures law { (P : Program) (Z : Sizes) (m₀ m : Cells) (K : List Waits) (env : Environment) (a : Account) (e : Expr) (p : ℕ)
        → Mirrors P Z m₀ (st K env (enters e) a) machine.old m → PlacedAt P machine.old.script.now.code at p
        → Moved P Z m₀ (st K env (enters e) a) (val_entered P Z p K env a (slice_get P.vals number)) result machine.new m }
{
    let node = val_at(machine.script, number as usize);
    machine.wait(Frame::Body(at, 0), node)
}
