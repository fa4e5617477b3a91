use cells::records::CellRecord;
use cells::values::Value;

// One call on a store.
#[derive(Clone, Copy)]
pub enum Call {
    Take(CellRecord),
    Read(u16),
    Write(u16, CellRecord),
    GiveBack(u16),
}

// A source of calls that look random and are the same in every run.
#[derive(Clone, Copy)]
pub struct Source {
    state: u32,
}

impl Source {
    pub fn new() -> Source {
        Source { state: 20260 }
    }

    // The next number.
    fn next(&mut self) -> u16 {
        self.state = self.state.wrapping_mul(1664525).wrapping_add(1013904223);
        (self.state >> 16) as u16
    }

    // A record with some of its fields used, no two alike within a few thousand calls.
    pub fn contents(&mut self) -> CellRecord {
        let a = self.next() as u32;
        let b = self.next() as u32;
        let values = [
            Value::Int(b.cast_signed()),
            Value::Bool(a % 2 == 0),
            Value::Sym(a),
            Value::Unit,
            Value::Function(b),
            Value::Cell(a),
        ];
        let used = (a % 7) as usize;
        let constructor = (b % 256) as u16;
        let contents = CellRecord::new(constructor, &values[..used]).unwrap_or(CellRecord::bare(
            constructor,
        ));
        contents.with_spare(self.state)
    }

    // Some call: half of those that change a cell give one back, so that the store stays about half full. The cell's
    // number may be one or two past the capacity, so that some calls are refused.
    pub fn call(&mut self, capacity: u16) -> Call {
        let cell = self.next() % capacity.saturating_add(2);
        match self.next() % 6 {
            0 => Call::Take(self.contents()),
            1 => Call::Write(cell, self.contents()),
            2 | 3 => Call::GiveBack(cell),
            _ => Call::Read(cell),
        }
    }
}
