use crate::told::Told;
use std::fmt;

// What was counted of one value: its cells, those of its copy, the cells that were live after the copy, if they are told,
// those given back with each, and the live cells left.
#[derive(Clone, Copy, PartialEq, Eq)]
pub struct Seen {
    pub size: Told,
    pub copy: Told,
    pub together: Option<u16>,
    pub dropped: Told,
    pub copy_dropped: Told,
    pub live: u16,
}

impl fmt::Display for Seen {
    fn fmt<W: fmt::Write>(&self, f: &mut fmt::Formatter<W>) -> fmt::Result {
        let Seen {
            size,
            copy,
            together,
            dropped,
            copy_dropped,
            live,
        } = *self;
        write!(f, "size {size}, copy {copy}")?;
        if let Some(together) = together {
            write!(f, ", live together {together}")?;
        }
        write!(
            f,
            ", dropped {dropped}, copy dropped {copy_dropped}, live {live}"
        )
    }
}
