// Entering an application of a constructor.
// `steady` is a clause of each row: what a call leaves as it was is no fact of one value.
ghost use Rattle.std.specs.Prelude.{◌≡◌, ℕ, ◌+◌, List};
ghost use Rattle.cells.specs.Meaning.{Cells};
ghost use Rattle.data.specs.Trees.{none};
ghost use Rattle.grammar.specs.Trees.{Expr, Exprs};
ghost use Rattle.machine.specs.Holding.{names};
ghost use Rattle.machine.specs.Mirrors.{Mirrors, Moved, Steady};
ghost use Rattle.machine.specs.Waiting.{PlacedAt};
ghost use Rattle.program.specs.Compiling.{argument_count};
ghost use Rattle.program.specs.Programs.{Program};
ghost use Rattle.program.specs.Standing.{at as code_there, past, StandsArguments};
ghost use Rattle.rules.specs.States.{Environment, Account, st};
ghost use Rattle.rules.specs.States.{Frame as Waits, enter as enters};
ghost use Rattle.rules.specs.Steps.{Sizes, took, build, enter_construct};

use cells::records::CellRecord;
use cells::store::CellStore;
use cells::values::Value;
use machine::{Frame, Machine, code_at};
use program::Op;
use rules::FaultKind;

// A constructor without fields is done at once: it takes a cell.
fn build_bare<S: CellStore>(
    machine: &mut Machine<'_, '_>,
    store: &mut S,
    constructor: u16,
) -> Result<(), FaultKind>
    ensures steady { Steady machine.old machine.new }
    ensures law { (P : Program) (Z : Sizes) (m₀ : Cells) (K : List Waits) (env : Environment) (a : Account) (e : Expr)
        → Mirrors P Z m₀ (st K env (enters e) a) machine.old (S.CellStore.cells store.old)
        → Moved P Z m₀ (st K env (enters e) a) (build P Z constructor K env a (took none env)) result machine.new (S.CellStore.cells store.new) }
{
    let cell = store.take(CellRecord::bare(constructor))?;
    machine.taken = machine.taken.saturating_add(1);
    machine.finish(Value::cell(cell))
}

// With fields it waits for the first of them; its name at the head is not entered.
pub fn enter_build<S: CellStore>(
    machine: &mut Machine<'_, '_>,
    store: &mut S,
    at: u16,
    constructor: u16,
    count: u16,
) -> Result<(), FaultKind>
    ensures steady { Steady machine.old machine.new }
    ensures law { (P : Program) (Z : Sizes) (m₀ : Cells) (K : List Waits) (env : Environment) (a : Account) (e : Expr) (p : ℕ) (es : Exprs)
        → Mirrors P Z m₀ (st K env (enters e) a) machine.old (S.CellStore.cells store.old)
        → PlacedAt P machine.old.script.now.code at p → (code_there P machine.old.script.now.code at).op ≡ Op.Build constructor count → argument_count es ≡ count
        → StandsArguments P machine.old.script.now.code (names env) es (past P machine.old.script.now.code (at + 1)) (past P machine.old.script.now.code at)
        → Moved P Z m₀ (st K env (enters e) a) (enter_construct P Z p constructor es K env a) result machine.new (S.CellStore.cells store.new) }
{
    if count == 0 {
        return build_bare(machine, store, constructor);
    }
    let first = code_at(machine.script, at as usize + 1).past;
    let next = code_at(machine.script, first as usize).past;
    machine.wait(Frame::Field(at, next), first)
}
