// The end of a run: all that it holds is dropped.
ghost use Rattle.std.specs.Prelude.{◌≡◌, ◌+◌, ◌≤◌, false, List, ◌∷◌, ◌++◌};
ghost use Rattle.cells.specs.Meaning.{Cells};
ghost use Rattle.cells.specs.declared.values.Value.{Value as Held};
ghost use Rattle.data.specs.Taking.{Out};
ghost use Rattle.data.specs.Trees.{Tree, Trees, more, size, sizes};
ghost use Rattle.machine.specs.Holding.{values_in};
ghost use Rattle.machine.specs.Waiting.{value_in_hand};
ghost use Rattle.run.specs.Closings.{Gives, Frees};
ghost use Rattle.run.specs.Openings.{Opening, Made};
ghost use Rattle.run.specs.Stands.{Stands, Finished};
ghost use Rattle.stack.specs.Items.{tops};

use super::runs::{OpenRun, Run};
use cells::store::CellStore;
use cells::values::Value;
use data::drops::drop_value;
use machine::{Control, Slot};
use rules::Closed;
use stack::Stack;

// How many cells were given back, and whether a value stood for nothing, as over another or a changed store.
#[derive(Clone, Copy)]
pub(crate) struct Dropped {
    pub(crate) given: u64,
    pub(crate) stuck: bool,
}

impl Dropped {
    // One value more is dropped.
    fn and<S: CellStore>(self, store: &mut S, value: Value) -> Dropped
        ensures grows { self.given ≤ result.given }
        ensures law { (m₀ : Cells) (vs : List Held) (t : Tree) (ts : Trees) → Out (S.CellStore.cells store.old) (value ∷ vs) (more t ts) m₀
            → Gives self (size t) result × Out (S.CellStore.cells store.new) vs ts m₀ }
    {
        match drop_value(store, value) {
            Ok(count) => Dropped {
                given: self.given.saturating_add(count as u64),
                stuck: self.stuck,
            },
            Err(_) => Dropped {
                given: self.given,
                stuck: true,
            },
        }
    }
}

// Drops what the slots hold, the newest first.
fn drop_slots<S: CellStore>(slots: &mut Stack<'_, Slot>, store: &mut S, before: Dropped) -> Dropped
    ensures grows { before.given ≤ result.given }
    ensures law { (m₀ : Cells) (ts : Trees) → Out (S.CellStore.cells store.old) (values_in (tops slots.old)) ts m₀
        → Frees before ts m₀ result (S.CellStore.cells store.new) }
{
    let mut dropped = before;
    while let Some(slot) = slots.pop() {
        if let Some(value) = slot {
            dropped = dropped.and(store, value);
        }
    }
    dropped
}

// The value just finished, if there is one, and all slots.
pub(crate) fn drop_all<S: CellStore>(
    finished: Control,
    slots: &mut Stack<'_, Slot>,
    store: &mut S,
    given: u64,
) -> Dropped
    ensures grows { given ≤ result.given }
    ensures law { (m₀ : Cells) (ts : Trees) → Out (S.CellStore.cells store.old) (value_in_hand finished ++ values_in (tops slots.old)) ts m₀
        → Frees (record { given = given; stuck = false }) ts m₀ result (S.CellStore.cells store.new) }
{
    let none = Dropped {
        given,
        stuck: false,
    };
    let first = if let Control::Finished(value) = finished {
        none.and(store, value)
    } else {
        none
    };
    drop_slots(slots, store, first)
}

// Drops all that the run holds, and answers the counts of the whole run, this call's among them.
pub fn close<S: CellStore>(run: &mut Run<'_, '_>, open: OpenRun, store: &mut S) -> Closed
    ensures steps { result.steps ≡ run.old.steps }
    ensures taken { result.taken ≡ run.old.machine.taken }
    ensures given { run.old.machine.given ≤ result.given_back }
    ensures law { (o : Opening) (h : List Made) → Stands o h run.old (S.CellStore.cells store.old) → Finished o h result (S.CellStore.cells store.new) }
{
    let OpenRun { open: _ } = open;
    let machine = &mut run.machine;
    let dropped = drop_all(machine.control, &mut machine.slots, store, machine.given);
    Closed {
        steps: run.steps,
        taken: machine.taken,
        given_back: dropped.given,
        stuck: dropped.stuck,
    }
}
