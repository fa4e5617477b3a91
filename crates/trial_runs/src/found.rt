// What a whole run came to.
use last_line::Outcome;
use rules::{Closed, End};

#[derive(Drop)]
pub struct Found {
    // how the last advance ended
    pub end: End,
    // what all advances answered together
    pub steps: u64,
    pub output: Vec<u8>,
    pub closed: Closed,
    // how many cells were live after the close
    pub live: u16,
    // whether each advance left the rest of its slice as it was
    pub spared: bool,
}

impl Found {
    // Whether the counts agree with one another, and the store is empty again.
    pub fn is_sound(&self) -> bool {
        self.spared
            && self.live == 0
            && self.closed.taken == self.closed.given_back
            && u64::from(self.closed.steps) == self.steps
            && !self.closed.stuck
    }
}

// For the last line. A run that was given up before its end has none.
pub fn outcome_of(end: End, steps: u32) -> Option<Outcome> {
    match end {
        End::Ended => Some(Outcome::Ended(steps)),
        End::Faulted(fault) => Some(Outcome::Faulted(fault)),
        End::Paused | End::OutputFull => None,
    }
}
