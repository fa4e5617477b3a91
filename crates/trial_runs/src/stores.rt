// The stores that a run is tried over.
use cells::store::CellStore;
use chain::slots::ChainSlot;
use chain::store::ChainStore;
use marked::store::MarkedStore;
use shelf::Shelf;
use std::alloc::{AllocError, Global};

#[derive(Clone, Copy, PartialEq, Eq)]
pub enum Kind {
    Chain,
    Marked,
    ShelfOnChain,
    ShelfOnMarked,
    // a shelf on a shelf on the chain store
    ShelfOnShelf,
}

impl Kind {
    pub const ALL: [Kind; 5] = [
        Kind::Chain,
        Kind::Marked,
        Kind::ShelfOnChain,
        Kind::ShelfOnMarked,
        Kind::ShelfOnShelf,
    ];

    pub fn name(self) -> &'static str {
        match self {
            Kind::Chain => "the chain store",
            Kind::Marked => "the marked store",
            Kind::ShelfOnChain => "a shelf on the chain store",
            Kind::ShelfOnMarked => "a shelf on the marked store",
            Kind::ShelfOnShelf => "a shelf on a shelf",
        }
    }
}

// What is tried over a store.
pub trait Trial {
    fn over<S: CellStore>(&mut self, store: &mut S) -> Result<(), AllocError>;
}

fn over_chain<T: Trial>(
    heap: Global,
    cells: usize,
    shelves: usize,
    trial: &mut T,
) -> Result<(), AllocError> {
    let mut slots = vec![in heap; ChainSlot::Free(0); cells]?;
    let mut chain = ChainStore::new(&mut slots);
    if shelves == 0 {
        return trial.over(&mut chain);
    }
    let mut shelf = Shelf::new(&mut chain);
    if shelves == 1 {
        return trial.over(&mut shelf);
    }
    trial.over(&mut Shelf::new(&mut shelf))
}

fn over_marked<T: Trial>(
    heap: Global,
    cells: usize,
    shelves: usize,
    trial: &mut T,
) -> Result<(), AllocError> {
    let mut slots = vec![in heap; None; cells]?;
    let mut marked = MarkedStore::new(&mut slots);
    if shelves == 0 {
        return trial.over(&mut marked);
    }
    trial.over(&mut Shelf::new(&mut marked))
}

// Tries it over a new store of this kind with so many cells.
pub fn over<T: Trial>(
    heap: Global,
    kind: Kind,
    cells: usize,
    trial: &mut T,
) -> Result<(), AllocError> {
    match kind {
        Kind::Chain => over_chain(heap, cells, 0, trial),
        Kind::Marked => over_marked(heap, cells, 0, trial),
        Kind::ShelfOnChain => over_chain(heap, cells, 1, trial),
        Kind::ShelfOnMarked => over_marked(heap, cells, 1, trial),
        Kind::ShelfOnShelf => over_chain(heap, cells, 2, trial),
    }
}
