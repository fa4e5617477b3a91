// A run from opening to close.
use super::cutting::Cuts;
use super::found::Found;
use cells::store::CellStore;
use checking::Checked;
use machine::Frame;
use rules::End;
use run::{OpenRun, Run, advance, close, open};
use std::alloc::{AllocError, Global};

// What a run is lent beside its store.
#[derive(Clone, Copy)]
pub struct Lent {
    pub first: usize,
    pub second: usize,
    pub allowance: u32,
}

// The longest output slice.
const MOST_ROOM: usize = 65535;

// More advances are given up.
const MOST_ADVANCES: u32 = 100_000_000;

// What an output slice has before an advance.
const MARK: u8 = 165;

// What the advances came to.
#[derive(Drop)]
struct Advances {
    end: End,
    steps: u64,
    output: Vec<u8>,
    spared: bool,
}

impl Advances {
    fn new(heap: Global) -> Advances {
        Advances {
            end: End::Paused,
            steps: 0,
            output: Vec::new(heap),
            spared: true,
        }
    }

    // One advance with this slice: how many bytes it wrote.
    fn add<S: CellStore>(
        &mut self,
        run: &mut Run<'_, '_>,
        open_run: &OpenRun,
        store: &mut S,
        out: &mut [u8],
        count: u32,
    ) -> Result<usize, AllocError> {
        out.fill(MARK);
        let advanced = advance(run, open_run, store, out, count);
        let bytes = advanced.bytes.min(out.len());
        self.end = advanced.end;
        self.steps = self.steps.saturating_add(u64::from(advanced.steps));
        self.output.extend_from_slice(&out[..bytes])?;
        self.spared = self.spared && out[bytes..].iter().all(|b| *b == MARK);
        Ok(bytes)
    }

    // Advances until the run has ended or faulted. Where the next print is longer than the whole slice, the next slice is twice as long.
    fn add_all<S: CellStore, C: Cuts>(
        &mut self,
        run: &mut Run<'_, '_>,
        open_run: &OpenRun,
        store: &mut S,
        cuts: &mut C,
        out: &mut [u8],
    ) -> Result<(), AllocError> {
        let mut least = 0;
        for _ in 0..MOST_ADVANCES {
            let cut = cuts.next(store);
            let room = cut.room.max(least).min(out.len());
            let bytes = self.add(run, open_run, store, &mut out[..room], cut.count)?;
            least = match self.end {
                End::Ended | End::Faulted(_) => return Ok(()),
                End::OutputFull if bytes == 0 => room.saturating_mul(2).saturating_add(1),
                End::OutputFull | End::Paused => 0,
            };
        }
        Ok(())
    }
}

// Opens a run, advances it as it is to be cut, until it has ended or faulted, and closes it.
pub fn run_cut<S: CellStore, C: Cuts>(
    heap: Global,
    script: &Checked<'_>,
    input: &[u8],
    lent: Lent,
    store: &mut S,
    cuts: &mut C,
) -> Result<Found, AllocError> {
    let mut frames = vec![in heap; Frame::Main; lent.first]?;
    let mut slots = vec![in heap; None; lent.second]?;
    let mut out = vec![in heap; MARK; MOST_ROOM]?;
    let mut advances = Advances::new(heap);
    let (mut run, open_run) = open(
        script,
        store,
        input,
        &mut frames,
        &mut slots,
        lent.allowance,
    );
    let added = advances.add_all(&mut run, &open_run, store, cuts, &mut out);
    let closed = close(&mut run, open_run, store);
    added?;
    let Advances {
        end,
        steps,
        output,
        spared,
    } = advances;
    Ok(Found {
        end,
        steps,
        output,
        closed,
        live: store.live_count(),
        spared,
    })
}
