use cells::refusals::StoreRefusal;
use std::fmt;

// What a drive saw: its calls, the refusals of each kind, the most cells that were live, and where store and model differed.
#[derive(Clone, Copy, Default)]
pub struct Tally {
    pub calls: u32,
    pub dead: u32,
    pub none_free: u32,
    pub most: u16,
    pub differ: u32,
}

impl Tally {
    // Notes a call: whether store and model agree, and how many cells are live after it.
    pub fn note(&mut self, agree: bool, live: u16) {
        self.calls = self.calls.saturating_add(1);
        if !agree {
            self.differ = self.differ.saturating_add(1);
        }
        self.most = self.most.max(live);
    }

    // Notes a refusal, of which each kind has its count: no number comes here.
    pub fn refuse(&mut self, refusal: StoreRefusal) {
        match refusal {
            StoreRefusal::DeadCell => self.dead = self.dead.saturating_add(1),
            StoreRefusal::NoFreeCell => self.none_free = self.none_free.saturating_add(1),
        }
    }
}

impl fmt::Display for Tally {
    fn fmt<W: fmt::Write>(&self, f: &mut fmt::Formatter<W>) -> fmt::Result {
        write!(
            f,
            "{} calls, {} refused 20, {} refused 22, {} live at most, {} differ",
            self.calls, self.dead, self.none_free, self.most, self.differ
        )
    }
}
