// The ways in which a run is tried.
use cells::store::CellStore;
use checking::Checked;
use std::alloc::{AllocError, Global};
use trial_runs::{Cut, Cuts, Even, Found, Kind, Lent, Trial, over, run_cut};

// As one advance, as far as the slice goes, and step by step: so many steps at a time, and slices in which longer prints do not fit at once.
pub const CUTS: [Cut; 6] = [
    Cut {
        count: u32::MAX,
        room: 65535,
    },
    Cut { count: 1, room: 17 },
    Cut { count: 2, room: 40 },
    Cut { count: 3, room: 1 },
    Cut { count: 7, room: 64 },
    Cut {
        count: 1000,
        room: 5,
    },
];

// A script with its input and what its runs are lent beside a store.
#[derive(Clone, Copy)]
pub struct Setting<'a> {
    pub script: &'a Checked<'a>,
    pub input: &'a [u8],
    pub lent: Lent,
}

// The run of a setting, cut so.
#[derive(Drop)]
struct Way<'a> {
    heap: Global,
    setting: Setting<'a>,
    cut: Cut,
    found: Option<Found>,
}

impl Trial for Way<'_> {
    fn over<S: CellStore>(&mut self, store: &mut S) -> Result<(), AllocError> {
        let setting = self.setting;
        let mut cuts = Even(self.cut);
        self.found = Some(run_cut(
            self.heap,
            setting.script,
            setting.input,
            setting.lent,
            store,
            &mut cuts,
        )?);
        Ok(())
    }
}

// What the run comes to over a new store of this kind with so many cells.
pub fn found_so(
    heap: Global,
    setting: Setting<'_>,
    kind: Kind,
    cells: usize,
    cut: Cut,
) -> Result<Option<Found>, AllocError> {
    let mut way = Way {
        heap,
        setting,
        cut,
        found: None,
    };
    over(heap, kind, cells, &mut way)?;
    Ok(way.found)
}
