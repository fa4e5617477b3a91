ghost use Rattle.std.specs.Prelude.{◌≡◌, ℕ, ◌+◌, ◌<◌, ◌≤◌, min, Some, None, Option, MatchResult, length, drop, replicate, slice_index_or, slice_set, refl};
ghost use Rattle.std.specs.Option.{option_copied};
ghost use Rattle.cells.specs.declared.records.CellRecord.{CellRecord};
ghost use Rattle.cells.specs.Meaning.{Written, record_at};
ghost use Rattle.cells.specs.Lent.{front, meant};

use crate::records::CellRecord;
use crate::refusals::StoreRefusal;
use crate::store::MOST_CELLS;

// A place for a cell in memory that a store is lent: free, or live with a record.
pub trait Slot: Copy {
    // the cell that a slot means
    ghost cell: { Self → Option CellRecord };

    // the live slot with a record
    ghost holding: { CellRecord → Self };

    // the free slot that was made with a number
    ghost before: { ℕ → Self };

    // The record of a live slot.
    fn record(&self) -> Option<&CellRecord>
        ensures { option_copied result ≡ cell self.now };

    // The live slot with this record.
    fn live(contents: CellRecord) -> Self
        ensures { result ≡ holding contents };

    // A free slot. The number is that of the next free cell, for slots that are linked.
    fn free(next: u16) -> Self
        ensures { result ≡ before next };

    // a live slot means its record
    ghost held: { (r : CellRecord) → cell (holding r) ≡ Some r };

    // a free slot means no cell
    ghost empty: { (n : ℕ) → cell (before n) ≡ None };
}

// Where free slots are not linked, an optional record is a slot.
impl Slot for Option<CellRecord> {
    ghost cell = { λ c. c };

    ghost holding = { λ r. Some r };

    ghost before = { λ _. None };

    ghost held = { λ r. refl };

    ghost empty = { λ n. refl };

    #[inline(always)]
    fn record(&self) -> Option<&CellRecord> {
        self.as_ref()
    }

    #[inline(always)]
    fn live(contents: CellRecord) -> Option<CellRecord> {
        Some(contents)
    }

    #[inline(always)]
    fn free(_next: u16) -> Option<CellRecord> {
        None
    }
}

// Makes each slot free, with the number after its own.
fn free_each<T: Slot>(slots: &mut [T])
    requires { length slots.old ≤ 65535 }
    ensures { (k : ℕ) (d : T) → k < length slots.old → slice_index_or slots.new k d ≡ T.Slot.before (k + 1) }
{
    for (i, slot) in slots.iter_mut().enumerate() {
        *slot = T::free((i + 1) as u16);
    }
}

// Makes the first 65535 slots free, or all where there are fewer, each with the number after its own, and answers how
// many these are.
pub fn free_slots<T: Slot>(slots: &mut [T]) -> u16
    ensures count { result ≡ min (length slots.old) 65535 }
    ensures size { length slots.new ≡ length slots.old }
    ensures freed { (k : ℕ) (d : T) → k < result → slice_index_or (front slots.new) k d ≡ T.Slot.before (k + 1) }
    ensures empty { meant T.Slot.cell slots.new ≡ replicate (min (length slots.old) 65535) None }
    ensures past { drop 65535 slots.new ≡ drop 65535 slots.old }
{
    let count = slots.len().min(MOST_CELLS as usize);
    free_each(&mut slots[..count]);
    count as u16
}

// The record of a live cell; refuses any other number.
#[inline(always)]
pub fn read_slot<T: Slot>(slots: &[T], cell: u16) -> Result<CellRecord, StoreRefusal>
    ensures { result ≡ record_at (meant T.Slot.cell slots.now) cell }
{
    // Through `get` and `ok_or`, which pass the slot on by value, a walk that only reads took twice as long.
    let used = slots.len().min(MOST_CELLS as usize);
    if cell as usize >= used {
        return Err(StoreRefusal::DeadCell);
    }
    match slots[cell as usize].record() {
        Some(contents) => Ok(*contents),
        None => Err(StoreRefusal::DeadCell),
    }
}

// Puts a slot at a number; past the end nothing changes.
// As `put` of `entries`, but always inlined, as each call of the stores is: a record that is passed to a call is copied.
#[inline(always)]
fn put_slot<T: Copy>(slots: &mut [T], cell: u16, slot: T)
    ensures { slots.new ≡ slice_set slots.old cell slot }
{
    let place = cell as usize;
    if place < slots.len() {
        slots[place] = slot;
    }
}

// Replaces the record of a live cell; refuses any other number.
#[inline(always)]
pub fn write_slot<T: Slot>(
    slots: &mut [T],
    cell: u16,
    contents: CellRecord,
) -> Result<(), StoreRefusal>
    ensures means { Written (meant T.Slot.cell slots.old) cell contents result (meant T.Slot.cell slots.new) }
    ensures put { MatchResult result (λ _. slots.new ≡ slice_set slots.old cell (T.Slot.holding contents)) (λ _. slots.new ≡ slots.old) }
    ensures past { drop 65535 slots.new ≡ drop 65535 slots.old }
{
    read_slot(slots, cell)?;
    put_slot(slots, cell, T::live(contents));
    Ok(())
}
