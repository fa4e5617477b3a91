// The end of a let, a branch and a function: names leave.
// `steady` and `room` are clauses of each row: what a call leaves as it was is no fact of one value.
ghost use Rattle.std.specs.Prelude.{◌≡◌, ℕ, ◌++◌, ◌≤◌, List, ◌∷◌, length, Some};
ghost use Rattle.cells.specs.Meaning.{Cells};
ghost use Rattle.cells.specs.declared.values.Value.{Value as Held};
ghost use Rattle.data.proofs.Outs.{join, tally};
ghost use Rattle.data.specs.Taking.{Out};
ghost use Rattle.data.specs.Trees.{Tree, Trees, more, size};
ghost use Rattle.handing.specs.Leaving.{Leaves};
ghost use Rattle.machine.specs.Holding.{value_in, values_in, trees_in};
ghost use Rattle.machine.specs.Mirrors.{Hands, Moved, Steady};
ghost use Rattle.program.specs.Programs.{Program};
ghost use Rattle.rules.specs.States.{Environment, Account, st};
ghost use Rattle.rules.specs.States.{Frame as Waits, finished as has_finished};
ghost use Rattle.rules.specs.Steps.{Sizes, hand};
ghost use Rattle.stack.specs.Items.{tops, room_of};

use cells::store::CellStore;
use cells::values::Value;
use data::drops::drop_value;
use machine::{Control, Frame, Machine, Slot};
use rules::FaultKind;
use stack::Stack;

// What a slot holds is dropped; the answer is how many cells that gives back, and none where the store contradicts.
fn drop_slot<S: CellStore>(store: &mut S, slot: Slot) -> Option<u32>
    ensures { (m₀ : Cells) (vs : List Held) (t : Tree) (ts : Trees) → Out (S.CellStore.cells store.old) (value_in slot ∷ vs) (more t ts) m₀
        → (result ≡ Some (size t)) × Out (S.CellStore.cells store.new) vs ts m₀ }
{
    // Tried: by map_or the proof didn't close.
    match slot {
        Some(value) => drop_value(store, value).ok(),
        None => Some(0),
    }
}

// The newest slots leave, and what they hold is dropped; the answer is how many cells that gives back.
pub fn leave<S: CellStore>(slots: &mut Stack<'_, Slot>, store: &mut S, count: u16) -> Option<u64>
    ensures room { room_of slots.new ≡ room_of slots.old }
    ensures law { (m₀ : Cells) (vs : List Held) (ts : Trees) (env : Environment) → count ≤ length env → tally ts ≡ length vs
        → Out (S.CellStore.cells store.old) (vs ++ values_in (tops slots.old)) (join ts (trees_in env)) m₀
        → Leaves count vs ts env (tops slots.old) result (tops slots.new) (S.CellStore.cells store.new) m₀ }
{
    let mut total = 0;
    // No index: so many are popped.
    for _i in 0..count {
        let slot = slots.pop()?;
        let number = drop_slot(store, slot)?;
        total = u64::saturating_add(total, number as u64);
    }
    Some(total)
}

// The value of a let, a branch or a function's body: its names leave, and what waited has that value. A val name has none.
pub fn hand_leaving<S: CellStore>(
    machine: &mut Machine<'_, '_>,
    store: &mut S,
    at: u16,
    count: u16,
    value: Value,
) -> Result<(), FaultKind>
    ensures steady { Steady machine.old machine.new }
    ensures law { (P : Program) (Z : Sizes) (m₀ : Cells) (f : Waits) (K : List Waits) (env : Environment) (a : Account) (t : Tree)
        → Hands P Z m₀ f K env a t (Frame.Leaving at count) value machine.old (S.CellStore.cells store.old)
        → Moved P Z m₀ (st (f ∷ K) env (has_finished t) a) (hand P Z f K env a t) result machine.new (S.CellStore.cells store.new) }
    ensures body { (P : Program) (Z : Sizes) (m₀ : Cells) (f : Waits) (K : List Waits) (env : Environment) (a : Account) (t : Tree)
        → Hands P Z m₀ f K env a t (Frame.Body at count) value machine.old (S.CellStore.cells store.old)
        → Moved P Z m₀ (st (f ∷ K) env (has_finished t) a) (hand P Z f K env a t) result machine.new (S.CellStore.cells store.new) }
{
    let number = leave(&mut machine.slots, store, count).ok_or(FaultKind::Stuck)?;
    machine.given = machine.given.saturating_add(number);
    machine.frames.cut(1);
    machine.finish(value)
}

// Main's value is dropped, and the run has ended.
pub fn hand_main<S: CellStore>(
    machine: &mut Machine<'_, '_>,
    store: &mut S,
    value: Value,
) -> Result<(), FaultKind>
    ensures steady { Steady machine.old machine.new }
    ensures law { (P : Program) (Z : Sizes) (m₀ : Cells) (f : Waits) (K : List Waits) (env : Environment) (a : Account) (t : Tree)
        → Hands P Z m₀ f K env a t Frame.Main value machine.old (S.CellStore.cells store.old)
        → Moved P Z m₀ (st (f ∷ K) env (has_finished t) a) (hand P Z f K env a t) result machine.new (S.CellStore.cells store.new) }
{
    let count = drop_value(store, value)?;
    machine.given = machine.given.saturating_add(count as u64);
    machine.frames.cut(1);
    machine.control = Control::Over;
    Ok(())
}
