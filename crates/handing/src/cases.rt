// The tested value of a case.
// `steady` is a clause of each row: what a call leaves as it was is no fact of one value.
ghost use Rattle.std.specs.Prelude.{◌≡◌, ℕ, ◌<◌, List, ◌∷◌, Some};
ghost use Rattle.cells.specs.Meaning.{Cells, at as at_cell};
ghost use Rattle.cells.specs.declared.records.CellRecord.{CellRecord as Record};
ghost use Rattle.data.specs.Trees.{Tree, Trees, built};
ghost use Rattle.grammar.specs.Trees.{Branches};
ghost use Rattle.handing.specs.Choosing.{ChosenAny, ChosenFields};
ghost use Rattle.machine.specs.Holding.{names};
ghost use Rattle.machine.specs.Mirrors.{Hands, Moved, Steady};
ghost use Rattle.program.specs.Programs.{Program};
ghost use Rattle.rules.specs.States.{Environment, Account, st, case_test};
ghost use Rattle.rules.specs.States.{Frame as Waits, finished as has_finished};
ghost use Rattle.rules.specs.Steps.{Sizes, select_branch, hand};

use super::choice::Choice;
use super::choosing::choose;
use super::fields::{bind_fields, names_in};
use cells::records::CellRecord;
use cells::store::CellStore;
use cells::values::Value;
use data::drops::drop_value;
use data::work_list::look;
use machine::{Frame, Machine, after, code_at};
use rules::FaultKind;

// A branch whose pattern is a wildcard: the whole value is dropped.
fn take_any<S: CellStore>(
    machine: &mut Machine<'_, '_>,
    store: &mut S,
    at: u16,
    branch: u16,
    value: Value,
) -> Result<(), FaultKind>
    ensures steady { Steady machine.old machine.new }
    ensures law { (P : Program) (Z : Sizes) (m₀ : Cells) (p : ℕ) (bs : Branches) (K : List Waits) (env : Environment) (a : Account) (c : ℕ) (vs : Trees)
        → Hands P Z m₀ (case_test p bs) K env a (built c vs) (Frame.Tested at) value machine.old (S.CellStore.cells store.old)
        → ChosenAny P machine.old.script.now.code (names env) bs c branch
        → Moved P Z m₀ (st (case_test p bs ∷ K) env (has_finished (built c vs)) a) (select_branch P Z p bs c vs K env a) result machine.new (S.CellStore.cells store.new) }
{
    let count = drop_value(store, value)?;
    machine.given = machine.given.saturating_add(count as u64);
    machine.frames.replace_top(Frame::Leaving(at, 0));
    machine.go(after(branch))
}

// A branch for the constructor: the tested cell is given back, and its fields are bound or dropped.
fn take_fields<S: CellStore>(
    machine: &mut Machine<'_, '_>,
    store: &mut S,
    at: u16,
    branch: u16,
    mask: u8,
    cell: u16,
    contents: CellRecord,
) -> Result<(), FaultKind>
    ensures steady { Steady machine.old machine.new }
    ensures law { (P : Program) (Z : Sizes) (m₀ : Cells) (p : ℕ) (bs : Branches) (K : List Waits) (env : Environment) (a : Account) (c : ℕ) (vs : Trees)
        → Hands P Z m₀ (case_test p bs) K env a (built c vs) (Frame.Tested at) (Value.Cell cell) machine.old (S.CellStore.cells store.old)
        → at_cell (S.CellStore.cells store.old) cell ≡ Some contents
        → ChosenFields P machine.old.script.now.code (names env) bs c branch mask
        → Moved P Z m₀ (st (case_test p bs ∷ K) env (has_finished (built c vs)) a) (select_branch P Z p bs c vs K env a) result machine.new (S.CellStore.cells store.new) }
{
    let names = names_in(mask);
    let room = machine.slots.room();
    if room - machine.slots.len() < names as usize {
        return Err(FaultKind::StackFull);
    }
    store.give_back(cell)?;
    let count = bind_fields(&mut machine.slots, store, contents, mask).ok_or(FaultKind::Stuck)?;
    machine.given = machine.given.saturating_add(1).saturating_add(count);
    machine.frames.replace_top(Frame::Leaving(at, names));
    machine.go(after(branch))
}

// The tested value of a case: the first branch that fits is taken.
pub fn hand_tested<S: CellStore>(
    machine: &mut Machine<'_, '_>,
    store: &mut S,
    at: u16,
    value: Value,
) -> Result<(), FaultKind>
    ensures steady { Steady machine.old machine.new }
    ensures law { (P : Program) (Z : Sizes) (m₀ : Cells) (f : Waits) (K : List Waits) (env : Environment) (a : Account) (t : Tree)
        → Hands P Z m₀ f K env a t (Frame.Tested at) value machine.old (S.CellStore.cells store.old)
        → Moved P Z m₀ (st (f ∷ K) env (has_finished t) a) (hand P Z f K env a t) result machine.new (S.CellStore.cells store.new) }
{
    let Value::Cell(number) = value else {
        return Err(FaultKind::Stuck);
    };
    let contents = look(store, number)?;
    let first = code_at(machine.script, at as usize + 1).past;
    let past = code_at(machine.script, at as usize).past;
    match choose(machine.script, first, past, contents.constructor).ok_or(FaultKind::NoBranch)? {
        Choice::Any(branch) => take_any(machine, store, at, branch, value),
        Choice::Fields(branch, mask) => take_fields(
            machine,
            store,
            at,
            branch,
            mask,
            number as u16,
            contents,
        ),
    }
}
