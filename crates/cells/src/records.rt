ghost use Rattle.std.specs.Prelude.{◌≡◌, ℕ, ◌≤◌, true, length, drop};
ghost use Rattle.cells.specs.Values.{all_unit};

use crate::record_methods::FIELDS;
use crate::values::Value;

// What a live cell holds: a constructor, how many of its six fields are used, the fields, and a spare number that is
// free for whoever walks the cells. Unused fields hold unit.
// An array with its count, since memory is fixed: a cell lies in a lent slot, and a library takes no heap.
#[derive(Clone, Copy, Debug, PartialEq, Eq)]
pub struct CellRecord {
    pub constructor: u16,
    pub used: u8,
    pub fields: [Value; FIELDS],
    pub spare: u32,
    ghost six: { length fields ≡ 6 },
    ghost few: { used ≤ 6 },
    ghost rest: { all_unit (drop used fields) ≡ true },
}
