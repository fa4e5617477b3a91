use crate::calls::{Call, Source};
use crate::model::Model;
use crate::tally::Tally;
use cells::refusals::StoreRefusal;
use cells::store::CellStore;

// A store, the plain list that it is compared with, and what was seen of both.
#[derive(Drop)]
struct Trial<'a, 'm, S: CellStore> {
    store: &'a mut S,
    model: &'a mut Model<'m>,
    tally: Tally,
}

impl<'a, 'm, S: CellStore> Trial<'a, 'm, S> {
    // Notes a refusal, and says whether it is the right one.
    fn refused(&mut self, refusal: StoreRefusal, right: StoreRefusal) -> bool {
        self.tally.refuse(refusal);
        refusal == right
    }

    // Notes a refusal that is due where a cell is not live, and says whether it is.
    fn dead(&mut self, refusal: StoreRefusal, cell: u16) -> bool {
        self.refused(refusal, StoreRefusal::DeadCell) && !self.model.is_live(cell)
    }

    // Makes one call on the store and on the model, and says whether the answers agree. A match on a closed enum, since each
    // case has its own rule.
    fn make(&mut self, call: Call) -> bool {
        match call {
            Call::Take(contents) => match self.store.take(contents) {
                Ok(cell) => {
                    let fits = (cell as usize) < self.model.capacity() && !self.model.is_live(cell);
                    self.model.put(cell, contents);
                    fits
                }
                Err(refusal) => {
                    self.refused(refusal, StoreRefusal::NoFreeCell)
                        && self.model.live() == self.model.capacity()
                }
            },
            Call::Read(cell) => match self.store.read(cell) {
                Ok(contents) => self.model.holds(cell, contents),
                Err(refusal) => self.dead(refusal, cell),
            },
            Call::Write(cell, contents) => match self.store.write(cell, contents) {
                Ok(_) => {
                    let fits = self.model.is_live(cell);
                    self.model.put(cell, contents);
                    fits
                }
                Err(refusal) => self.dead(refusal, cell),
            },
            Call::GiveBack(cell) => match self.store.give_back(cell) {
                Ok(_) => {
                    let fits = self.model.is_live(cell);
                    self.model.clear(cell);
                    fits
                }
                Err(refusal) => self.dead(refusal, cell),
            },
        }
    }

    // Makes one call, and then asks both questions.
    fn step(&mut self, call: Call) {
        let agree = self.make(call);
        let live = self.store.live_count();
        let counted = live as usize == self.model.live()
            && self.store.capacity() as usize == self.model.capacity();
        self.tally.note(agree && counted, live);
    }

    // Takes one cell more than there are, so that the last take is refused.
    fn fill(&mut self, source: &mut Source) {
        for _ in 0..=self.store.capacity() as u32 {
            self.step(Call::Take(source.contents()));
        }
    }

    // Reads every cell, and one number more.
    fn look(&mut self) {
        for cell in 0..=self.store.capacity() {
            self.step(Call::Read(cell));
        }
    }

    // Gives every cell back, and one number more.
    fn empty(&mut self) {
        for cell in 0..=self.store.capacity() {
            self.step(Call::GiveBack(cell));
        }
    }
}

// The same long list of calls for every store: filled up and refused, looked at, emptied; calls of every kind;
// filled up again, looked at, emptied again.
pub fn drive<S: CellStore>(store: &mut S, model: &mut Model) -> Tally {
    let mut trial = Trial {
        store,
        model,
        tally: Tally::default(),
    };
    let mut source = Source::new();
    trial.fill(&mut source);
    trial.look();
    trial.empty();
    let capacity = trial.store.capacity();
    for _ in 0..1000 + 2 * capacity as u32 {
        trial.step(source.call(capacity));
    }
    trial.fill(&mut source);
    trial.look();
    trial.empty();
    trial.tally
}
