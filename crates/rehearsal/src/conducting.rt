// From the text to the close.
ghost use Rattle.std.specs.Prelude.{◌≡◌, length};
ghost use Rattle.rehearsal.specs.Asking.{MadeAll, history_of};
ghost use Rattle.rehearsal.specs.Judged.{judgement, Judged, IfRefused, IfRun};
ghost use Rattle.run.specs.Openings.{opening};
ghost use Rattle.run.specs.Stands.{AnswersAgree, NoneStuck, ShortExactly, Finished};

use super::asks::Ask;
use super::rehearsing::rehearse;
use cells::store::CellStore;
use layout::Node;
use machine::{Frame, Slot};
use rules::Closed;
use run::close;
use script_refusals::Refused;

// A whole run of a script, with these advances, and its close.
pub fn conduct<S: CellStore>(
    text: &[u8],
    nodes: &mut [Node],
    store: &mut S,
    input: &[u8],
    frames: &mut [Frame],
    slots: &mut [Slot],
    allowance: u32,
    asks: &mut [Ask],
    out: &mut [u8],
) -> Result<Closed, Refused>
    ensures cells { S.CellStore.cells store.new ≡ S.CellStore.cells store.old }
    ensures untouched { IfRefused result ((asks.new ≡ asks.old) × (out.new ≡ out.old)) }
    ensures made { IfRun result (MadeAll asks.old asks.new out.old out.new (history_of asks.new out.new)) }
    ensures answers { Judged (judgement text.now (length nodes.old)) (λ s x. AnswersAgree (opening s (S.CellStore.cells store.old) input.now (length frames.old) (length slots.old) allowance) (history_of asks.new out.new)) result }
    ensures sound { Judged (judgement text.now (length nodes.old)) (λ s x. NoneStuck (opening s (S.CellStore.cells store.old) input.now (length frames.old) (length slots.old) allowance) (history_of asks.new out.new)) result }
    ensures short { Judged (judgement text.now (length nodes.old)) (λ s x. ShortExactly (opening s (S.CellStore.cells store.old) input.now (length frames.old) (length slots.old) allowance) (history_of asks.new out.new)) result }
    ensures counts { Judged (judgement text.now (length nodes.old)) (λ s x. Finished (opening s (S.CellStore.cells store.old) input.now (length frames.old) (length slots.old) allowance) (history_of asks.new out.new) x (S.CellStore.cells store.new)) result }
{
    let mut place = None;
    let (mut run, token) = rehearse(
        text, nodes, &mut place, store, input, frames, slots, allowance, asks, out,
    )?;
    Ok(close(&mut run, token, store))
}
