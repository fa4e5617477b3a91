// A list of advances, one after another.
ghost use Rattle.std.specs.Prelude.{◌≡◌, [], List};
ghost use Rattle.rehearsal.specs.Asking.{MadeAll};
ghost use Rattle.run.specs.Openings.{Opening, Made};
ghost use Rattle.run.specs.Stands.{Stands};

use super::asks::Ask;
use cells::store::CellStore;
use run::{OpenRun, Run, advance};

// Each writes behind what those before it wrote, and is lent as much as it asks for, or what is left.
pub(crate) fn make_all<S: CellStore>(
    run: &mut Run<'_, '_>,
    open: &OpenRun,
    store: &mut S,
    asks: &mut [Ask],
    out: &mut [u8],
)
    ensures { (o : Opening) → Stands o [] run.old (S.CellStore.cells store.old)
        → (h : List Made) × MadeAll asks.old asks.new out.old out.new h × Stands o h run.new (S.CellStore.cells store.new) }
{
    let mut written: usize = 0;
    for ask in asks.iter_mut() {
        let end = out.len().min(written.saturating_add(ask.room));
        let answer = advance(run, open, store, &mut out[written..end], ask.count);
        ask.room = end - written;
        ask.answer = Some(answer);
        written += answer.bytes;
    }
}
