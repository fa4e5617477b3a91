// An advance of a run.
ghost use Rattle.std.specs.Prelude.{◌≡◌, ◌≤◌, List, [], ◌∷◌, ◌++◌, length, take};
ghost use Rattle.run.specs.Insides.{Spares, Steady};
ghost use Rattle.run.specs.Openings.{Opening, Made, made};
ghost use Rattle.run.specs.Stands.{Stands};

use super::runs::{OpenRun, Run};
use super::stretches::go_on;
use cells::store::CellStore;
use rules::{Advanced, End};

// At most so many steps. What they print goes to the front of the slice, and the rest of it stays as it was.
pub fn advance<S: CellStore>(
    run: &mut Run<'_, '_>,
    open: &OpenRun,
    store: &mut S,
    out: &mut [u8],
    count: u32,
) -> Advanced
    ensures steps { result.steps ≤ count }
    ensures spares { Spares result.bytes out.old out.new }
    ensures steady { Steady run.old run.new }
    ensures law { (o : Opening) (h : List Made) → Stands o h run.old (S.CellStore.cells store.old)
        → Stands o (h ++ made count (length out.old) result (take result.bytes out.new) ∷ []) run.new (S.CellStore.cells store.new) }
{
    let OpenRun { open: _ } = open;
    if let Some(fault) = run.fault {
        return Advanced {
            end: End::Faulted(fault),
            steps: 0,
            bytes: 0,
        };
    }
    let left = run.allowance.saturating_sub(run.steps);
    let stretch = go_on(&mut run.machine, store, out, count.min(left));
    run.steps = run.steps.saturating_add(stretch.steps);
    Advanced {
        end: run.end_by(stretch.stop, stretch.steps == count),
        steps: stretch.steps,
        bytes: stretch.bytes,
    }
}
