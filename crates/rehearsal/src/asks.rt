// An advance that is asked for.
use rules::Advanced;

// At most so many steps, a slice of so many bytes, and the answer once the advance is made.
#[derive(Clone, Copy, PartialEq, Eq)]
pub struct Ask {
    pub count: u32,
    pub room: usize,
    pub answer: Option<Advanced>,
}
