// Opening a run.
ghost use Rattle.std.specs.Prelude.{◌≡◌, [], length};
ghost use Rattle.grammar.specs.Trees.{Script};
ghost use Rattle.run.specs.Openings.{Means, opening};
ghost use Rattle.run.specs.Stands.{Stands};

use super::runs::{OpenRun, Run};
use cells::store::CellStore;
use checking::Checked;
use machine::{Control, Frame, Machine, Slot};
use stack::Stack;

// The most steps that a run takes, whatever it is allowed.
const MOST_STEPS: u32 = 1_000_000_000;

// Opens a run of a checked script over a store, with the input, the entries of two stacks and an allowance of steps. It cannot be refused.
// The store is only looked at: the run is over this one, and each later call is handed it again.
pub fn open<'a, 'v, S: CellStore>(
    script: &'a Checked<'_>,
    _store: &S,
    input: &'a [u8],
    frames: &'a mut [Frame],
    slots: &'v mut [Slot],
    allowance: u32,
) -> (Run<'a, 'v>, OpenRun)
    ensures { (s : Script) → Means script.now s → Stands (opening s (S.CellStore.cells _store.now) input.now (length frames.old) (length slots.old) allowance) [] result.0 (S.CellStore.cells _store.now) }
{
    let machine = Machine {
        script: script.code(),
        text: script.text(),
        input,
        frames: Stack::new(frames),
        slots: Stack::new(slots),
        control: Control::Opened,
        taken: 0,
        given: 0,
    };
    let run = Run {
        machine,
        allowance: allowance.min(MOST_STEPS),
        steps: 0,
        fault: None,
    };
    (run, OpenRun { open: () })
}
