// A constructor with fields is applied.
// `steady` is a clause of each row: what a call leaves as it was is no fact of one value.
ghost use Rattle.std.specs.Prelude.{◌≡◌, ℕ, ◌+◌, ◌<◌, ◌≤◌, List, [], ◌∷◌, length, drop, MatchOption};
ghost use Rattle.calling.specs.Gathering.{Gathers, Misses, Newest};
ghost use Rattle.cells.specs.Meaning.{Cells};
ghost use Rattle.data.specs.Trees.{Tree, none, more};
ghost use Rattle.grammar.specs.Trees.{Exprs};
ghost use Rattle.machine.specs.Holding.{names};
ghost use Rattle.machine.specs.Mirrors.{Rests, Mirrors, Moved, Steady};
ghost use Rattle.machine.specs.Waiting.{Waits as WaitsFor};
ghost use Rattle.program.specs.Programs.{Program};
ghost use Rattle.rules.specs.States.{Environment, Account, State, builds, argument, next_argument};
ghost use Rattle.rules.specs.States.{Frame as Waits};
ghost use Rattle.rules.specs.Steps.{Sizes, apply};
ghost use Rattle.stack.specs.Items.{tops};

use cells::records::CellRecord;
use cells::store::CellStore;
use cells::values::Value;
use machine::{Frame, Machine, Slot, value_at};
use rules::FaultKind;
use stack::Stack;

// The values of the newest slots, the newest first, as many as the row has places.
fn read_newest(slots: &Stack<'_, Slot>, row: &mut [Value]) -> Option<()>
    ensures { MatchOption result (Misses (length row.old) (tops slots.now)) (λ _. Newest (tops slots.now) (length row.old) row.new) }
{
    for (depth, value) in row.iter_mut().enumerate() {
        *value = value_at(slots, depth)?;
    }
    Some(())
}

// The arguments in their order: so many from the slots, and the last one.
fn gather(slots: &Stack<'_, Slot>, held: usize, last: Value) -> Option<[Value; 6]>
    requires { held < 6 }
    ensures { MatchOption result (Misses held (tops slots.now)) (λ fields. Gathers held (tops slots.now) last fields) }
{
    let unit = Value::Unit;
    let mut fields = [unit; 6];
    fields[0] = last;
    read_newest(slots, &mut fields[1..held + 1])?;
    // the newest came first, and the fields begin with the oldest
    fields[..held + 1].reverse();
    Some(fields)
}

// With so many arguments held and the last one: they become the fields of a new cell.
pub fn build_last<S: CellStore>(
    machine: &mut Machine<'_, '_>,
    store: &mut S,
    constructor: u16,
    held: usize,
    last: Value,
) -> Result<(), FaultKind>
    ensures steady { Steady machine.old machine.new }
    ensures law { (P : Program) (Z : Sizes) (m₀ : Cells) (s : State) (K : List Waits) (env : Environment) (a : Account) (p : ℕ) (es : Exprs) (t : Tree) (top : Frame) (others : List Frame)
        → Mirrors P Z m₀ s machine.old (S.CellStore.cells store.old)
        → Rests P Z m₀ (next_argument p (builds constructor) held es ∷ K) env a (last ∷ []) (more t none) machine.old (S.CellStore.cells store.old)
        → tops machine.old.frames ≡ top ∷ others → WaitsFor P machine.old.script.now.code (drop held (names env)) K others → held < 6
        → Moved P Z m₀ s (apply P Z p (builds constructor) (held + 1) K (argument t ∷ env) a) result machine.new (S.CellStore.cells store.new) }
{
    if held >= 6 {
        return Err(FaultKind::Stuck);
    }
    let fields = gather(&machine.slots, held, last).ok_or(FaultKind::Stuck)?;
    let contents = CellRecord::new(constructor, &fields[..held + 1]).ok_or(FaultKind::Stuck)?;
    let cell = store.take(contents)?;
    machine.frames.cut(1);
    machine.slots.cut(held);
    machine.taken = machine.taken.saturating_add(1);
    machine.finish(Value::cell(cell))
}
