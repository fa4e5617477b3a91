// How a run is cut into advances.
use cells::store::CellStore;

// What an advance is given: at most so many steps, and an output slice of this length.
#[derive(Clone, Copy)]
pub struct Cut {
    pub count: u32,
    pub room: usize,
}

pub trait Cuts {
    // The next advance. The store lies between two advances, so that a host who changes it can be played.
    fn next<S: CellStore>(&mut self, store: &mut S) -> Cut;
}

// Every advance alike.
#[derive(Clone, Copy)]
pub struct Even(pub Cut);

impl Cuts for Even {
    fn next<S: CellStore>(&mut self, _store: &mut S) -> Cut {
        self.0
    }
}
