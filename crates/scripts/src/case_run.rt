// A case of a run: its advances as they are stored, over any store.
use super::ways::Setting;
use cases::{Advance, Close};
use cells::store::CellStore;
use expected::{advance_agrees, close_agrees};
use machine::Frame;
use run::{OpenRun, Run, advance, close, open};
use std::alloc::{AllocError, Global};
use trial_runs::Trial;

// What an output slice has before an advance, and the longest one.
const MARK: u8 = 90;

const MOST_ROOM: usize = 65535;

#[derive(Drop)]
pub struct Replay<'a> {
    pub heap: Global,
    pub setting: Setting<'a>,
    pub advances: &'a [Advance<'a>],
    pub close: Close,
    // whether each answer was the stored one, no other byte was written, and the store was empty after the close
    pub same: bool,
}

// One advance.
fn replays<S: CellStore>(
    text: &[u8],
    run: &mut Run<'_, '_>,
    open_run: &OpenRun,
    store: &mut S,
    out: &mut [u8],
    told: &Advance<'_>,
) -> bool {
    out.fill(MARK);
    let answer = advance(run, open_run, store, out, told.count);
    let bytes = answer.bytes.min(out.len());
    advance_agrees(text, told, answer, &out[..bytes]) && out[bytes..].iter().all(|b| *b == MARK)
}

// All of them, up to one that is answered otherwise.
fn replays_all<S: CellStore>(
    text: &[u8],
    run: &mut Run<'_, '_>,
    open_run: &OpenRun,
    store: &mut S,
    out: &mut [u8],
    advances: &[Advance<'_>],
) -> bool {
    for told in advances {
        let room = (told.room as usize).min(out.len());
        if !replays(text, run, open_run, store, &mut out[..room], told) {
            return false;
        }
    }
    true
}

impl Trial for Replay<'_> {
    fn over<S: CellStore>(&mut self, store: &mut S) -> Result<(), AllocError> {
        let setting = self.setting;
        let mut frames = vec![in self.heap; Frame::Main; setting.lent.first]?;
        let mut slots = vec![in self.heap; None; setting.lent.second]?;
        let mut out = vec![in self.heap; MARK; MOST_ROOM]?;
        let (mut run, open_run) = open(
            setting.script,
            store,
            setting.input,
            &mut frames,
            &mut slots,
            setting.lent.allowance,
        );
        let text = setting.script.text();
        let advanced = replays_all(text, &mut run, &open_run, store, &mut out, self.advances);
        let closed = close(&mut run, open_run, store);
        self.same = advanced && close_agrees(self.close, closed) && store.live_count() == 0;
        Ok(())
    }
}
