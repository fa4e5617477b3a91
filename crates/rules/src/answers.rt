// What a run answers.
use super::fault::Fault;

#[derive(Clone, Copy, PartialEq, Eq)]
pub enum End {
    // the run is over
    Ended,
    Faulted(Fault),
    // as many steps as asked for are taken
    Paused,
    // the next step prints more than still fits
    OutputFull,
}

#[derive(Clone, Copy, PartialEq, Eq)]
pub struct Advanced {
    pub end: End,
    pub steps: u32,
    // how many bytes were written
    pub bytes: usize,
}

// The whole run's steps, cells taken and cells given back; and whether closing met what no checked script meets over its own store:
// the counts stand either way.
#[derive(Clone, Copy, PartialEq, Eq)]
pub struct Closed {
    pub steps: u32,
    pub taken: u64,
    pub given_back: u64,
    pub stuck: bool,
}
