// The reason in words.
use super::lending::LENT;
use advice::{explain_fault, explain_refusal};
use last_line::Outcome;
use std::io;

// Why a script is refused or its run stopped, on standard error; nothing where it ended.
pub fn explain(rt: &HostRuntime, text: &[u8], outcome: Outcome) -> io::Result<()> {
    match outcome {
        Outcome::Ended(_) => Ok(()),
        Outcome::Faulted(fault) => {
            let words = explain_fault(rt.alloc(), text, fault, &LENT)?;
            eprint!(rt; "{words}")
        }
        Outcome::Refused(refused) => {
            let words = explain_refusal(rt.alloc(), text, refused)?;
            eprint!(rt; "{words}")
        }
    }
}
