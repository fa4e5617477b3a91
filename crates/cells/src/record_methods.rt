ghost use Rattle.std.specs.Prelude.{◌≡◌, ℕ, ◌<◌, ◌≤◌, [], length, MatchOption, slice_index_or};
ghost use Rattle.cells.specs.Records.{Made, FieldPut, SparePut};

use crate::records::CellRecord;
use crate::values::Value;

// The most fields that a record has.
pub const FIELDS: usize = 6;

impl CellRecord {
    // A record without fields.
    pub fn bare(constructor: u16) -> CellRecord
        ensures { Made constructor [] result }
    {
        CellRecord {
            constructor,
            used: 0,
            fields: [Value::Unit; FIELDS],
            spare: 0,
        }
    }

    // A record with these values as its fields; none exactly where there are more than six.
    pub fn new(constructor: u16, values: &[Value]) -> Option<CellRecord>
        ensures { MatchOption result (6 < length values.now) (λ made. Made constructor values.now made) }
    {
        if values.len() > FIELDS {
            return None;
        }
        let mut fields = [Value::Unit; FIELDS];
        fields[..values.len()].copy_from_slice(values);
        Some(CellRecord {
            constructor,
            used: values.len() as u8,
            fields,
            spare: 0,
        })
    }

    // The field at a place; unit at one that is not used.
    pub fn field(&self, place: usize) -> Value
        ensures { result ≡ slice_index_or self.now.fields place Value.Unit }
    {
        self.fields.get(place).copied().unwrap_or(Value::Unit)
    }

    // The record with another value at a place; none exactly where the place is not used.
    pub fn with_field(mut self, place: usize, value: Value) -> Option<CellRecord>
        ensures { MatchOption result (self.used ≤ place) (λ new. FieldPut self place value new) }
    {
        if place >= self.used as usize {
            return None;
        }
        self.fields[place] = value;
        Some(self)
    }

    // Puts another value at a place that is used; at any other nothing changes.
    #[inline(always)]
    pub fn set_field(&mut self, place: usize, value: Value)
        ensures put { place < self.old.used → FieldPut self.old place value self.new }
        ensures same { self.old.used ≤ place → self.new ≡ self.old }
    {
        if place < self.used as usize {
            self.fields[place] = value;
        }
    }

    // The record with another spare number.
    #[inline(always)]
    pub fn with_spare(mut self, spare: u32) -> CellRecord
        ensures { SparePut self spare result }
    {
        self.spare = spare;
        self
    }
}
