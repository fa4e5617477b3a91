// Parts of an if, a begin and a let.
// `steady` is a clause of each row: what a call leaves as it was is no fact of one value.
ghost use Rattle.std.specs.Prelude.{◌≡◌, ℕ, List, ◌∷◌};
ghost use Rattle.cells.specs.Meaning.{Cells};
ghost use Rattle.data.specs.Trees.{Tree};
ghost use Rattle.machine.specs.Mirrors.{Hands, Moved, Steady};
ghost use Rattle.program.specs.Programs.{Program};
ghost use Rattle.rules.specs.States.{Environment, Account, st};
ghost use Rattle.rules.specs.States.{Frame as Waits, finished as has_finished};
ghost use Rattle.rules.specs.Steps.{Sizes, hand};

use cells::store::CellStore;
use cells::values::Value;
use data::drops::drop_value;
use machine::{Frame, Machine, Slot, bind_next, code_at};
use rules::FaultKind;

// The test of an if: the arm chosen is next.
pub fn hand_test(machine: &mut Machine<'_, '_>, at: u16, value: Value) -> Result<(), FaultKind>
    ensures steady { Steady machine.old machine.new }
    ensures law { (P : Program) (Z : Sizes) (m₀ m : Cells) (f : Waits) (K : List Waits) (env : Environment) (a : Account) (t : Tree)
        → Hands P Z m₀ f K env a t (Frame.Test at) value machine.old m
        → Moved P Z m₀ (st (f ∷ K) env (has_finished t) a) (hand P Z f K env a t) result machine.new m }
{
    let Value::Bool(test) = value else {
        return Err(FaultKind::Stuck);
    };
    let arm = code_at(machine.script, at as usize + 1).past;
    machine.frames.replace_top(Frame::Arm(at));
    if test {
        return machine.go(arm);
    }
    let other = code_at(machine.script, arm as usize).past;
    machine.go(other)
}

// The arm's value is the if's.
pub fn hand_arm(machine: &mut Machine<'_, '_>, at: u16, value: Value) -> Result<(), FaultKind>
    ensures steady { Steady machine.old machine.new }
    ensures law { (P : Program) (Z : Sizes) (m₀ m : Cells) (f : Waits) (K : List Waits) (env : Environment) (a : Account) (t : Tree)
        → Hands P Z m₀ f K env a t (Frame.Arm at) value machine.old m
        → Moved P Z m₀ (st (f ∷ K) env (has_finished t) a) (hand P Z f K env a t) result machine.new m }
{
    machine.frames.cut(1);
    machine.finish(value)
}

// A part of a begin: it is dropped, and the next part comes; the last one's value is the begin's.
pub fn hand_part<S: CellStore>(
    machine: &mut Machine<'_, '_>,
    store: &mut S,
    at: u16,
    next: u16,
    value: Value,
) -> Result<(), FaultKind>
    ensures steady { Steady machine.old machine.new }
    ensures law { (P : Program) (Z : Sizes) (m₀ : Cells) (f : Waits) (K : List Waits) (env : Environment) (a : Account) (t : Tree)
        → Hands P Z m₀ f K env a t (Frame.Part at next) value machine.old (S.CellStore.cells store.old)
        → Moved P Z m₀ (st (f ∷ K) env (has_finished t) a) (hand P Z f K env a t) result machine.new (S.CellStore.cells store.new) }
{
    let past = code_at(machine.script, at as usize).past;
    if next < past {
        let count = drop_value(store, value)?;
        machine.given = machine.given.saturating_add(count as u64);
        let later = code_at(machine.script, next as usize).past;
        machine.frames.replace_top(Frame::Part(at, later));
        return machine.go(next);
    }
    machine.frames.cut(1);
    machine.finish(value)
}

// The value of a name in a let: it is bound, and the next binding comes, or the body.
pub fn hand_binding(
    machine: &mut Machine<'_, '_>,
    at: u16,
    next: u16,
    count: u16,
    value: Value,
) -> Result<(), FaultKind>
    ensures steady { Steady machine.old machine.new }
    ensures law { (P : Program) (Z : Sizes) (m₀ m : Cells) (f : Waits) (K : List Waits) (env : Environment) (a : Account) (t : Tree)
        → Hands P Z m₀ f K env a t (Frame.Binding at next count) value machine.old m
        → Moved P Z m₀ (st (f ∷ K) env (has_finished t) a) (hand P Z f K env a t) result machine.new m }
{
    machine.slots.push(Some(value))?;
    let on = bind_next(machine.script, at, next, count);
    machine.frames.replace_top(on.frame);
    machine.go(on.node)
}
