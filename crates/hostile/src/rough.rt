// Hosts that cut runs as it comes, and hosts that change the store in between.
use super::random::Random;
use cells::records::CellRecord;
use cells::store::CellStore;
use cells::values::Value;
use trial_runs::{Cut, Cuts};

// Advances of any length, with slices of any length.
pub fn any_cut(random: &mut Random) -> Cut {
    let count = match random.below(4) {
        0 => 1,
        1 => random.below(10) as u32,
        2 => random.below(1000) as u32,
        _ => random.below(100_000) as u32,
    };
    let room = match random.below(3) {
        0 => random.below(8),
        1 => random.below(300),
        _ => 2000,
    };
    Cut { count, room }
}

#[derive(Clone, Copy)]
pub struct Rough(pub Random);

impl Cuts for Rough {
    fn next<S: CellStore>(&mut self, _store: &mut S) -> Cut {
        any_cut(&mut self.0)
    }
}

// Any value, lawful or not for a script that might read it.
fn any_value(random: &mut Random) -> Value {
    match random.below(6) {
        0 => Value::Int(random.number().cast_signed()),
        1 => Value::Bool(random.once_in(2)),
        2 => Value::Sym(random.number() >> random.below(32)),
        3 => Value::Unit,
        4 => Value::Function(random.number() >> random.below(32)),
        _ => Value::Cell(random.below(40) as u32),
    }
}

fn any_record(random: &mut Random) -> CellRecord {
    let constructor = random.below(4) as u16;
    let values = [any_value(random), any_value(random)];
    let used = random.below(3);
    CellRecord::new(constructor, &values[..used]).unwrap_or(CellRecord::bare(constructor))
}

// One call on the store that its run knows nothing of; what it answers does not matter.
pub fn meddle<S: CellStore>(store: &mut S, random: &mut Random) {
    let cell = random.below(40) as u16;
    match random.below(3) {
        0 => {
            let _ = store.give_back(cell);
        }
        1 => {
            let _ = store.write(cell, any_record(random));
        }
        _ => {
            let _ = store.take(any_record(random));
        }
    }
}

// Meddles before every advance.
#[derive(Clone, Copy)]
pub struct Meddler(pub Random);

impl Cuts for Meddler {
    fn next<S: CellStore>(&mut self, store: &mut S) -> Cut {
        meddle(store, &mut self.0);
        let count = self.0.below(300) as u32;
        Cut { count, room: 300 }
    }
}
