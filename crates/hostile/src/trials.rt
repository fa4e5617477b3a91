// What is tried with a script that was accepted.
use super::random::Random;
use super::rough::{Meddler, Rough, any_cut};
use super::tally::Tally;
use cells::store::CellStore;
use chain::slots::ChainSlot;
use chain::store::ChainStore;
use checking::Checked;
use machine::Frame;
use marked::store::MarkedStore;
use rules::{Closed, End};
use run::{advance, close, open};
use std::alloc::{AllocError, Global};
use trial_runs::{Cut, Cuts, Even, Found, Kind, Lent, Trial, over, run_cut};

// A script, its input, and what its run is lent.
#[derive(Clone, Copy)]
pub struct Setting<'a> {
    pub script: &'a Checked<'a>,
    pub input: &'a [u8],
    pub lent: Lent,
    pub cells: usize,
}

// How often each end came.
#[derive(Clone, Copy)]
pub struct Ends {
    // as hosts should
    pub rightly: Tally,
    // with calls on the store in between
    pub meddled: Tally,
    // over two stores in turn
    pub swapped: Tally,
}

impl Ends {
    pub fn new() -> Ends {
        Ends {
            rightly: Tally::new(),
            meddled: Tally::new(),
            swapped: Tally::new(),
        }
    }
}

#[derive(Drop)]
struct Played<'a, C> {
    heap: Global,
    setting: Setting<'a>,
    cuts: C,
    found: Option<Found>,
}

impl<C: Cuts> Trial for Played<'_, C> {
    fn over<S: CellStore>(&mut self, store: &mut S) -> Result<(), AllocError> {
        let setting = self.setting;
        self.found = Some(run_cut(
            self.heap,
            setting.script,
            setting.input,
            setting.lent,
            store,
            &mut self.cuts,
        )?);
        Ok(())
    }
}

fn found_by<C: Cuts + Drop>(
    heap: Global,
    setting: Setting<'_>,
    kind: Kind,
    cuts: C,
) -> Result<Option<Found>, AllocError> {
    let mut trial = Played {
        heap,
        setting,
        cuts,
        found: None,
    };
    over(heap, kind, setting.cells, &mut trial)?;
    Ok(trial.found)
}

fn any_kind(random: &mut Random) -> Kind {
    match random.below(5) {
        0 => Kind::Chain,
        1 => Kind::Marked,
        2 => Kind::ShelfOnChain,
        3 => Kind::ShelfOnMarked,
        _ => Kind::ShelfOnShelf,
    }
}

// Whether two runs came to the same.
fn is_same(one: &Found, other: &Found) -> bool {
    one.end == other.end
        && one.closed == other.closed
        && one.output.as_slice() == other.output.as_slice()
}

// A run in two cuttings and over two kinds of store: both must come to the same, and leave their stores empty.
fn play_rightly(
    heap: Global,
    setting: Setting<'_>,
    random: &mut Random,
    tally: &mut Tally,
) -> Result<(), AllocError> {
    let rough = Rough(Random::new(random.number()));
    let one = found_by(heap, setting, any_kind(random), rough)?;
    let whole = Even(Cut {
        count: u32::MAX,
        room: 5000,
    });
    let other = found_by(heap, setting, any_kind(random), whole)?;
    if let (Some(one), Some(other)) = (one, other) {
        tally.count_end(one.end);
        if !one.is_sound() || !other.is_sound() || !is_same(&one, &other) {
            tally.count_wrong();
        }
    }
    Ok(())
}

// A run with calls on its store in between: it ends with some answer.
fn play_meddled(
    heap: Global,
    setting: Setting<'_>,
    random: &mut Random,
    tally: &mut Tally,
) -> Result<(), AllocError> {
    let meddler = Meddler(Random::new(random.number()));
    if let Some(found) = found_by(heap, setting, any_kind(random), meddler)? {
        tally.count_end(found.end);
        tally.count_stuck(found.closed.stuck);
    }
    Ok(())
}

// How a run over two stores ended, and its close.
#[derive(Clone, Copy)]
struct Turns {
    end: End,
    closed: Closed,
}

// Opened over the first store, advanced over both as it comes, and closed over the second.
fn over_both<S: CellStore, T: CellStore>(
    heap: Global,
    setting: Setting<'_>,
    random: &mut Random,
    one: &mut S,
    other: &mut T,
) -> Result<Turns, AllocError> {
    let mut frames = vec![in heap; Frame::Main; setting.lent.first]?;
    let mut slots = vec![in heap; None; setting.lent.second]?;
    let mut out = vec![in heap; 0; 2000]?;
    let (mut run, open_run) = open(
        setting.script,
        one,
        setting.input,
        &mut frames,
        &mut slots,
        setting.lent.allowance,
    );
    let mut end = End::Paused;
    for _ in 0..1_000_000 {
        let cut = any_cut(random);
        let room = cut.room.min(out.len());
        let slice = &mut out[..room];
        let advanced = if random.once_in(2) {
            advance(&mut run, &open_run, one, slice, cut.count)
        } else {
            advance(&mut run, &open_run, other, slice, cut.count)
        };
        end = advanced.end;
        if matches!(end, End::Ended | End::Faulted(_)) {
            break;
        }
    }
    let closed = close(&mut run, open_run, other);
    Ok(Turns { end, closed })
}

fn play_swapped(
    heap: Global,
    setting: Setting<'_>,
    random: &mut Random,
    tally: &mut Tally,
) -> Result<(), AllocError> {
    let mut chain_slots = vec![in heap; ChainSlot::Free(0); setting.cells]?;
    let mut marked_slots = vec![in heap; None; setting.cells]?;
    let mut chain = ChainStore::new(&mut chain_slots);
    let mut marked = MarkedStore::new(&mut marked_slots);
    let turns = over_both(heap, setting, random, &mut chain, &mut marked)?;
    tally.count_end(turns.end);
    tally.count_stuck(turns.closed.stuck);
    Ok(())
}

// All three.
pub fn play(
    heap: Global,
    setting: Setting<'_>,
    random: &mut Random,
    ends: &mut Ends,
) -> Result<(), AllocError> {
    play_rightly(heap, setting, random, &mut ends.rightly)?;
    play_meddled(heap, setting, random, &mut ends.meddled)?;
    play_swapped(heap, setting, random, &mut ends.swapped)
}
