// Steps of an advance, one after another.
ghost use Rattle.std.specs.Prelude.{◌≡◌, ◌+◌, ◌≤◌, ℕ, length};
ghost use Rattle.machine.specs.Mirrors.{Steady};
ghost use Rattle.rules.specs.Runs.{Run as State, allowed};
ghost use Rattle.run.specs.Insides.{Inside, Spares, Stretched, run_of};
ghost use Rattle.run.specs.Openings.{Opening};

use super::runs::is_over;
use cells::store::CellStore;
use machine::{Halt, Machine};
use stepping::step;

// Why no further step is taken.
#[derive(Clone, Copy)]
pub(crate) enum Stop {
    // the run has ended, or as many are taken as there might be
    Rested,
    Halted(Halt),
}

// Steps that were taken, and what they printed.
#[derive(Clone, Copy)]
pub(crate) struct Stretch {
    pub(crate) stop: Stop,
    pub(crate) steps: u32,
    pub(crate) bytes: usize,
}

// At most so many steps. The loop keeps its counts to itself: a run is written to once, when it is over.
pub(crate) fn go_on<S: CellStore>(
    machine: &mut Machine<'_, '_>,
    store: &mut S,
    out: &mut [u8],
    most: u32,
) -> Stretch
    ensures within { result.steps ≤ most }
    ensures spares { Spares result.bytes out.old out.new }
    ensures steady { Steady machine.old machine.new }
    ensures law { (o : Opening) (r : State) (count : ℕ) → Inside o r (run_of o r machine.old) (S.CellStore.cells store.old) → r.steps + most ≤ allowed o.allowance → most ≤ count
        → Stretched o r count most out.old result out.new machine.new (S.CellStore.cells store.new) }
{
    let mut bytes: usize = 0;
    for steps in 0..most {
        if is_over(machine) {
            return Stretch {
                stop: Stop::Rested,
                steps,
                bytes,
            };
        }
        match step(machine, store, &mut out[bytes..]) {
            Ok(printed) => bytes += printed,
            Err(halt) => {
                return Stretch {
                    stop: Stop::Halted(halt),
                    steps,
                    bytes,
                };
            }
        }
    }
    Stretch {
        stop: Stop::Rested,
        steps: most,
        bytes,
    }
}
