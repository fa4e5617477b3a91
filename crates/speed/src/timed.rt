// Runs by the clock.
use chain::slots::ChainSlot;
use chain::store::ChainStore;
use checking::Checked;
use machine::Frame;
use rules::Closed;
use run::{advance, close, open};
use std::io;
use std::time::Instant;

const CELLS: usize = 4000;

const ENTRIES: usize = 3000;

const STEPS: u32 = 1_000_000_000;

const RUNS: usize = 10;

// The fastest run, and what each came to.
#[derive(Clone, Copy)]
pub struct Timed {
    pub nanoseconds: u128,
    pub closed: Closed,
}

fn one_run(rt: &HostRuntime, script: &Checked<'_>) -> io::Result<Timed> {
    let mut cells = vec![in rt.alloc(); ChainSlot::Free(0); CELLS]?;
    let mut frames = vec![in rt.alloc(); Frame::Main; ENTRIES]?;
    let mut slots = vec![in rt.alloc(); None; ENTRIES]?;
    let mut out = [0; 4096];
    let mut store = ChainStore::new(&mut cells);
    let start = Instant::now(rt)?;
    let (mut run, open_run) = open(script, &store, b"", &mut frames, &mut slots, STEPS);
    advance(&mut run, &open_run, &mut store, &mut out, STEPS);
    let closed = close(&mut run, open_run, &mut store);
    let nanoseconds = start.elapsed(rt)?.as_nanos();
    Ok(Timed {
        nanoseconds,
        closed,
    })
}

pub fn best_of(rt: &HostRuntime, script: &Checked<'_>) -> io::Result<Timed> {
    let mut best = one_run(rt, script)?;
    for _ in 1..RUNS {
        let timed = one_run(rt, script)?;
        if timed.nanoseconds < best.nanoseconds {
            best = timed;
        }
    }
    Ok(best)
}
