// The run of a checked script, whose output is written as it comes.
use super::lending::{CELLS, ENTRIES, STEPS};
use cells::store::CellStore;
use chain::slots::ChainSlot;
use chain::store::ChainStore;
use checking::Checked;
use last_line::Outcome;
use machine::Frame;
use rules::End;
use run::{OpenRun, Run, advance, close, open};
use shelf::Shelf;
use std::io;
use std::io::Write;

// Longer than anything that a step prints: no symbol has more than 255 bytes.
const ROOM: usize = 4096;

// Advances a run until it has ended or faulted. An advance that neither ends nor faults it takes a step at least, so that no more of them
// are needed than there are steps and one.
fn advance_to_its_end<S: CellStore>(
    rt: &HostRuntime,
    run: &mut Run<'_, '_>,
    open_run: &OpenRun,
    store: &mut S,
) -> io::Result<End> {
    let mut out = [0; ROOM];
    let mut end = End::Paused;
    for _ in 0..=STEPS {
        let advanced = advance(run, open_run, store, &mut out, STEPS + 1);
        io::writer(rt).write_all(&out[..advanced.bytes.min(ROOM)])?;
        end = advanced.end;
        if matches!(end, End::Ended | End::Faulted(_)) {
            break;
        }
    }
    Ok(end)
}

// Opens a run, advances it to its end, and closes it, also where the output could not be written.
pub fn run_to_its_end(rt: &HostRuntime, script: &Checked<'_>, input: &[u8]) -> io::Result<Outcome> {
    let mut cells = vec![in rt.alloc(); ChainSlot::Free(0); CELLS]?;
    let mut frames = vec![in rt.alloc(); Frame::Main; ENTRIES]?;
    let mut slots = vec![in rt.alloc(); None; ENTRIES]?;
    let mut chain = ChainStore::new(&mut cells);
    let mut store = Shelf::new(&mut chain);
    let (mut run, open_run) = open(script, &store, input, &mut frames, &mut slots, STEPS);
    let end = advance_to_its_end(rt, &mut run, &open_run, &mut store);
    let closed = close(&mut run, open_run, &mut store);
    match end? {
        End::Faulted(fault) => Ok(Outcome::Faulted(fault)),
        End::Ended | End::Paused | End::OutputFull => Ok(Outcome::Ended(closed.steps)),
    }
}
