// Files of cases: each case has a text and the answer that stands beside it, and a program says what it finds of a text. The run over
// `cases.txt` prints a line for each group of cases, and a line for each case that is found otherwise.
//
// A line of the file is a word and, after one space, the rest. Lines that are empty or begin with `#` are skipped.
//
//   group TITLE                     begins a group of cases
//   text BYTES                      adds the rest of the line to the text of the case
//   times N BYTES                   adds the bytes N times
//   hex DIGITS                      adds the bytes that the digits write, two digits each
//   accepted COUNT                  ends the case: the text passes, with so many tokens or nodes
//   refused NUMBER PLACE            ends the case: the text is refused
//
// A program has one word more for the lines of a listing, and may have others of its own.
#![tactic(auto)]

mod agreeing;
mod answer;
mod case;
mod expected;
mod hex;
mod line;
mod run;
mod tally;
mod trial;

pub use answer::{Answer, Refused};
pub use expected::Expected;
pub use run::run_cases;
pub use trial::{Found, Trial};
