// The head and the arguments of an application.
// `steady` and `spares` are clauses of each row: what a call leaves as it was is no fact of one value.
ghost use Rattle.std.specs.Prelude.{◌≡◌, ℕ, ◌+◌, List, ◌∷◌};
ghost use Rattle.cells.specs.Meaning.{Cells};
ghost use Rattle.data.specs.Trees.{Tree};
ghost use Rattle.machine.specs.Mirrors.{Hands, Moved, Printed, Steady, Spares, Speaks};
ghost use Rattle.machine.specs.Waiting.{held_of};
ghost use Rattle.program.specs.Programs.{Program};
ghost use Rattle.rules.specs.States.{Environment, Account, st};
ghost use Rattle.rules.specs.States.{Frame as Waits, finished as has_finished};
ghost use Rattle.rules.specs.Steps.{Sizes, hand};

use calling::{build_last, call, call_bare};
use cells::store::CellStore;
use cells::values::Value;
use machine::{Frame, Halt, Held, Machine, Slot, code_at, unprinted};
use program::Op;
use rules::FaultKind;

// One argument more.
fn one_more(held: Held) -> Held
    ensures { (k : ℕ) → held ≡ held_of k → result ≡ held_of (k + 1) }
{
    match held {
        Held::None => Held::One,
        Held::One | Held::More => Held::More,
    }
}

// The function at the head: the first argument is next, or the call.
pub fn hand_head(
    machine: &mut Machine<'_, '_>,
    out: &mut [u8],
    at: u16,
    value: Value,
) -> Result<usize, Halt>
    ensures steady { Steady machine.old machine.new }
    ensures spares { Spares result out.old out.new }
    ensures law { (P : Program) (Z : Sizes) (m₀ m : Cells) (f : Waits) (K : List Waits) (env : Environment) (a : Account) (t : Tree)
        → Hands P Z m₀ f K env a t (Frame.Head at) value machine.old m
        → Printed P Z m₀ (st (f ∷ K) env (has_finished t) a) out.old (hand P Z f K env a t) result machine.new m out.new }
{
    let Value::Function(function) = value else {
        return Err(Halt::from(FaultKind::Stuck));
    };
    let past = code_at(machine.script, at as usize).past;
    let first = code_at(machine.script, at as usize + 1).past;
    if first < past {
        let next = code_at(machine.script, first as usize).past;
        machine
            .frames
            .replace_top(Frame::Argument(at, next, Held::None, function));
        return unprinted(machine.go(first));
    }
    call_bare(machine, out, at, function)
}

// An argument: it is held, and the next one comes, or the call.
pub fn hand_argument(
    machine: &mut Machine<'_, '_>,
    out: &mut [u8],
    at: u16,
    next: u16,
    held: Held,
    function: u32,
    value: Value,
) -> Result<usize, Halt>
    ensures steady { Steady machine.old machine.new }
    ensures spares { Spares result out.old out.new }
    ensures law { (P : Program) (Z : Sizes) (m₀ m : Cells) (f : Waits) (K : List Waits) (env : Environment) (a : Account) (t : Tree)
        → Hands P Z m₀ f K env a t (Frame.Argument at next held function) value machine.old m → Speaks P machine.old.text.now t
        → Printed P Z m₀ (st (f ∷ K) env (has_finished t) a) out.old (hand P Z f K env a t) result machine.new m out.new }
{
    if machine.slots.len() >= machine.slots.room() {
        return Err(Halt::from(FaultKind::StackFull));
    }
    let past = code_at(machine.script, at as usize).past;
    if next < past {
        machine.slots.push(Some(value))?;
        let later = code_at(machine.script, next as usize).past;
        machine
            .frames
            .replace_top(Frame::Argument(at, later, one_more(held), function));
        return unprinted(machine.go(next));
    }
    call(machine, out, at, function, held, value)
}

// An argument of a constructor: it is held, and the next one comes, or the data is built.
pub fn hand_field<S: CellStore>(
    machine: &mut Machine<'_, '_>,
    store: &mut S,
    at: u16,
    next: u16,
    value: Value,
) -> Result<(), FaultKind>
    ensures steady { Steady machine.old machine.new }
    ensures law { (P : Program) (Z : Sizes) (m₀ : Cells) (f : Waits) (K : List Waits) (env : Environment) (a : Account) (t : Tree)
        → Hands P Z m₀ f K env a t (Frame.Field at next) value machine.old (S.CellStore.cells store.old)
        → Moved P Z m₀ (st (f ∷ K) env (has_finished t) a) (hand P Z f K env a t) result machine.new (S.CellStore.cells store.new) }
{
    if machine.slots.len() >= machine.slots.room() {
        return Err(FaultKind::StackFull);
    }
    let code = code_at(machine.script, at as usize);
    if next < code.past {
        machine.slots.push(Some(value))?;
        let later = code_at(machine.script, next as usize).past;
        machine.frames.replace_top(Frame::Field(at, later));
        return machine.go(next);
    }
    let Op::Build(constructor, count) = code.op else {
        return Err(FaultKind::Stuck);
    };
    let held = (count as usize).checked_sub(1).ok_or(FaultKind::Stuck)?;
    build_last(machine, store, constructor, held, value)
}
