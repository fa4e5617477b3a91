// What a program does with the cases.
use super::answer::Answer;
use super::expected::Expected;
use std::alloc::{AllocError, Global};

// What is found of a text.
#[derive(Drop)]
pub struct Found {
    pub answer: Answer,
    // what the lines of a listing are compared with: a line for each token, node or entry, or what is said of a refusal
    pub listing: String,
    // what is wrong beside the answer
    pub complaint: Option<&'static str>,
}

pub trait Trial {
    // A line of the program's own words, for the case that is being read; none where it is no such line.
    fn set(&mut self, word: &str, rest: &str) -> Option<()>;

    // What is found of the text of a case, which expects so much. What was set for it is forgotten. The listing may be left out where none
    // is needed: a long text takes far longer to list than to judge.
    fn found(&mut self, heap: Global, text: &[u8], expected: Expected) -> Result<Found, AllocError>;
}
