// From the text to the last advance.
ghost use Rattle.std.specs.Prelude.{◌≡◌, length};
ghost use Rattle.rehearsal.specs.Asking.{MadeAll, history_of};
ghost use Rattle.rehearsal.specs.Judged.{judgement, Judged, IfRefused, IfRun};
ghost use Rattle.run.specs.Openings.{opening};
ghost use Rattle.run.specs.Stands.{CellsHeld, AnswersAgree, NoneStuck, ShortExactly, Stands, values_held};

use super::asks::Ask;
use super::making::make_all;
use cells::store::CellStore;
use checking::{Checked, check};
use layout::Node;
use machine::{Frame, Slot};
use parser::read;
use run::{OpenRun, Run, open};
use script_refusals::Refused;

// Reads and checks a script into the place that is lent for it, opens a run of it and makes these advances. The run is handed back open.
pub fn rehearse<'a, 't, 'v, S: CellStore>(
    text: &'t [u8],
    nodes: &mut [Node],
    place: &'a mut Option<Checked<'t>>,
    store: &mut S,
    input: &'a [u8],
    frames: &'a mut [Frame],
    slots: &'v mut [Slot],
    allowance: u32,
    asks: &mut [Ask],
    out: &mut [u8],
) -> Result<(Run<'a, 'v>, OpenRun), Refused>
    ensures untouched { IfRefused result ((S.CellStore.cells store.new ≡ S.CellStore.cells store.old) × (asks.new ≡ asks.old) × (out.new ≡ out.old)) }
    ensures made { IfRun result (MadeAll asks.old asks.new out.old out.new (history_of asks.new out.new)) }
    ensures cells { Judged (judgement text.now (length nodes.old)) (λ s x. CellsHeld (opening s (S.CellStore.cells store.old) input.now (length frames.old) (length slots.old) allowance) (history_of asks.new out.new) (values_held x.0) (S.CellStore.cells store.new)) result }
    ensures answers { Judged (judgement text.now (length nodes.old)) (λ s x. AnswersAgree (opening s (S.CellStore.cells store.old) input.now (length frames.old) (length slots.old) allowance) (history_of asks.new out.new)) result }
    ensures sound { Judged (judgement text.now (length nodes.old)) (λ s x. NoneStuck (opening s (S.CellStore.cells store.old) input.now (length frames.old) (length slots.old) allowance) (history_of asks.new out.new)) result }
    ensures short { Judged (judgement text.now (length nodes.old)) (λ s x. ShortExactly (opening s (S.CellStore.cells store.old) input.now (length frames.old) (length slots.old) allowance) (history_of asks.new out.new)) result }
    ensures run { Judged (judgement text.now (length nodes.old)) (λ s x. Stands (opening s (S.CellStore.cells store.old) input.now (length frames.old) (length slots.old) allowance) (history_of asks.new out.new) x.0 (S.CellStore.cells store.new)) result }
{
    let script = read(text, nodes)?;
    let checked = check(&script, text, nodes)?;
    let (mut run, token) = open(
        place.insert(checked),
        store,
        input,
        frames,
        slots,
        allowance,
    );
    make_all(&mut run, &token, store, asks, out);
    Ok((run, token))
}
