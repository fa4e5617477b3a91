// How often each answer came.
use rules::End;
use script_refusals::Refused;
use std::fmt;

#[derive(Clone, Copy)]
pub struct Tally {
    // by the number of a refusal or a fault; 0 where there is none
    counts: [u32; 40],
    // of runs, those that were given up
    pub unended: u32,
    // what must not be
    pub wrong: u32,
    // closes that met a dead cell or the like
    pub stuck: u32,
}

impl Tally {
    pub fn new() -> Tally {
        Tally {
            counts: [0; 40],
            unended: 0,
            wrong: 0,
            stuck: 0,
        }
    }

    fn count(&mut self, number: u8) {
        let i = number as usize;
        if i < 40 {
            self.counts[i] = self.counts[i].saturating_add(1);
        }
    }

    pub fn count_verdict(&mut self, refused: Option<Refused>) {
        self.count(refused.map_or(0, |r| r.refusal.number()));
    }

    pub fn count_end(&mut self, end: End) {
        match end {
            End::Ended => self.count(0),
            End::Faulted(fault) => self.count(fault.kind.number()),
            End::Paused | End::OutputFull => self.unended = self.unended.saturating_add(1),
        }
    }

    pub fn count_wrong(&mut self) {
        self.wrong = self.wrong.saturating_add(1);
    }

    pub fn count_stuck(&mut self, stuck: bool) {
        self.stuck = self.stuck.saturating_add(u32::from(stuck));
    }

    // Whether nothing was counted.
    pub fn is_empty(&self) -> bool {
        self.unended == 0 && self.counts.iter().all(|n| *n == 0)
    }
}

impl fmt::Display for Tally {
    fn fmt<W: fmt::Write>(&self, f: &mut fmt::Formatter<W>) -> fmt::Result {
        write!(f, "{} well", self.counts[0])?;
        for number in 1..40 {
            let count = self.counts[number];
            if count > 0 {
                write!(f, ", {count} by {number}")?;
            }
        }
        Ok(())
    }
}
