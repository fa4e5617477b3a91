// A case with its answers. Texts, inputs, outputs and names are parts of the file.

// What reading and checking a script with a node list of so many entries answers.
#[derive(Clone, Copy, PartialEq, Eq)]
pub struct CheckCase<'c> {
    pub text: &'c [u8],
    pub nodes: u32,
    // accepted, or refused so
    pub verdict: Result<(), Refused>,
}

// By number, as the file writes it: any number may stand there.
#[derive(Clone, Copy, PartialEq, Eq)]
pub struct Refused {
    pub number: u32,
    pub place: u32,
}

// What each of some advances and the close answer.
#[derive(Drop)]
pub struct RunCase<'c> {
    pub text: &'c [u8],
    pub input: &'c [u8],
    pub sizes: Sizes,
    pub advances: Vec<Advance<'c>>,
    pub close: Close,
}

// What a run has at opening.
#[derive(Clone, Copy, PartialEq, Eq)]
pub struct Sizes {
    // how many cells are free
    pub cells: u32,
    // the entries of the two stacks
    pub first: u32,
    pub second: u32,
    // how many steps it may take
    pub allowance: u32,
}

#[derive(Clone, Copy, PartialEq, Eq)]
pub struct Advance<'c> {
    // at most so many steps
    pub count: u32,
    // the length of the output slice
    pub room: u32,
    pub end: End<'c>,
    pub steps: u32,
    // what is written
    pub bytes: &'c [u8],
}

// How an advance ends.
#[derive(Clone, Copy, PartialEq, Eq)]
pub enum End<'c> {
    Ended,
    Paused,
    // the output slice has no room for the next print
    Full,
    Faulted(Fault<'c>),
}

// By number, as the file writes it.
#[derive(Clone, Copy, PartialEq, Eq)]
pub struct Fault<'c> {
    pub number: u32,
    pub place: u32,
    // the function that the fault names
    pub name: &'c [u8],
}

// The whole run's counts.
#[derive(Clone, Copy, PartialEq, Eq)]
pub struct Close {
    pub steps: u32,
    pub taken: u32,
    pub given_back: u32,
}

#[derive(Drop)]
pub enum Case<'c> {
    Check(CheckCase<'c>),
    Run(RunCase<'c>),
}
