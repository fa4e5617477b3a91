use data::refusals::WalkRefusal;
use std::fmt;

// What a walk answers, as it is told: a count, or the number of its refusal.
#[derive(Clone, Copy, PartialEq, Eq)]
pub struct Told(pub Result<u32, WalkRefusal>);

impl fmt::Display for Told {
    fn fmt<W: fmt::Write>(&self, f: &mut fmt::Formatter<W>) -> fmt::Result {
        match self.0 {
            Ok(count) => write!(f, "{count}"),
            Err(refusal) => {
                let number = refusal.number();
                write!(f, "refused {number}")
            }
        }
    }
}
