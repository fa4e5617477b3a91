ghost use Rattle.std.specs.Prelude.{◌≡◌, ℕ, ◌<◌, ◌≤◌, min, true, length, drop, replicate, None, MatchOption};
ghost use Rattle.cells.specs.Meaning.{Taken, Written, GivenBack, count_live};
ghost use Rattle.cells.specs.Lent.{front, meant, meant_small, Kept};
ghost use Rattle.marked.specs.Marks.{marked_cell, NoneFree, FreeAt};

use cells::lent::{free_slots, read_slot, write_slot};
use cells::records::CellRecord;
use cells::refusals::StoreRefusal;
use cells::store::CellStore;

// A store over lent slots, each of which has a record or none; a free one is searched for, from where the last search
// ended. Slots past the first 65535 are not used.
#[derive(Drop)]
pub struct MarkedStore<'a> {
    slots: &'a mut [Option<CellRecord>],
    capacity: u16,
    live: u16,
    next: u16,
    ghost sized: { capacity ≡ min (length slots.now) 65535 },
    ghost counted: { live ≡ count_live (meant marked_cell slots.now) },
    ghost inside: { next ≤ capacity },
}

// Where the first free slot stands, if there is one.
fn first_free(slots: &[Option<CellRecord>]) -> Option<usize>
    ensures { MatchOption result (NoneFree slots.now 0 (length slots.now)) (λ i. FreeAt slots.now (length slots.now) i) }
{
    slots.iter().position(|slot| slot.is_none())
}

// Where a free slot stands, if there is one: the first from `next` on, or else the first of all.
fn search(slots: &[Option<CellRecord>], next: usize) -> Option<usize>
    requires { next ≤ length slots.now }
    ensures { MatchOption result (NoneFree slots.now 0 (length slots.now)) (λ i. FreeAt slots.now (length slots.now) i) }
{
    let (before, after) = slots.split_at(next);
    first_free(after)
        .map(|found| next + found)
        .or_else(|| first_free(before))
}

impl<'a> MarkedStore<'a> {
    // A store of the first 65535 slots, or of all where there are fewer; none is live.
    pub fn new(slots: &'a mut [Option<CellRecord>]) -> MarkedStore<'a>
        ensures empty { meant marked_cell result.slots.now ≡ replicate (min (length slots.old) 65535) None }
        ensures past { drop 65535 result.slots.now ≡ drop 65535 slots.old }
        ensures lent { result.slots.ghost_name ≡ slots.entry.ghost_name }
    {
        let capacity = free_slots(slots);
        MarkedStore {
            slots,
            capacity,
            live: 0,
            next: 0,
        }
    }

    // The slots that the store was made over, as it leaves them.
    pub fn into_slots(self) -> &'a mut [Option<CellRecord>]
        ensures { (result.ghost_name ≡ self.entry.slots.ghost_name) × (result.now ≡ self.entry.slots.now) }
    {
        let MarkedStore {
            slots,
            capacity: _,
            live: _,
            next: _,
        } = self;
        slots
    }

    // Where a free slot in use stands, if there is one: searched for from where the last search ended.
    fn search(&self) -> Option<usize>
        ensures { MatchOption result (NoneFree (front self.now.slots.now) 0 (length (front self.now.slots.now))) (λ i. FreeAt (front self.now.slots.now) (length (front self.now.slots.now)) i) }
    {
        search(&self.slots[..self.capacity as usize], self.next as usize)
    }
}

// Reading and writing are a line each, over what both stores share. `kept` is a clause of each call that changes the store:
// what a call leaves as it was is no fact of one value.
impl CellStore for MarkedStore<'_> {
    ghost cells = { λ s. meant marked_cell s.slots.now };

    ghost small = { λ s. meant_small marked_cell s.slots.now };

    #[inline(always)]
    fn take(&mut self, contents: CellRecord) -> Result<u16, StoreRefusal>
        ensures means { Taken (meant marked_cell self.old.slots.now) contents result (meant marked_cell self.new.slots.now) }
        ensures kept { Kept self.old.slots self.new.slots }
    {
        if self.live == self.capacity {
            return Err(StoreRefusal::NoFreeCell);
        }
        let Some(found) = self.search() else {
            unreachable()
        };
        let found = found as u16;
        self.slots[found as usize] = Some(contents);
        self.live += 1;
        self.next = found + 1;
        Ok(found)
    }

    #[inline(always)]
    fn read(&self, cell: u16) -> Result<CellRecord, StoreRefusal> {
        read_slot(self.slots, cell)
    }

    #[inline(always)]
    fn write(&mut self, cell: u16, contents: CellRecord) -> Result<(), StoreRefusal>
        ensures means { Written (meant marked_cell self.old.slots.now) cell contents result (meant marked_cell self.new.slots.now) }
        ensures kept { Kept self.old.slots self.new.slots }
    {
        write_slot(self.slots, cell, contents)
    }

    #[inline(always)]
    fn give_back(&mut self, cell: u16) -> Result<(), StoreRefusal>
        ensures means { GivenBack (meant marked_cell self.old.slots.now) cell result (meant marked_cell self.new.slots.now) }
        ensures kept { Kept self.old.slots self.new.slots }
    {
        self.read(cell)?;
        self.slots[cell as usize] = None;
        self.live -= 1;
        Ok(())
    }

    fn capacity(&self) -> u16 {
        self.capacity
    }

    fn live_count(&self) -> u16 {
        self.live
    }
}
