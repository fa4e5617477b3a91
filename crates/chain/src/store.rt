ghost use Rattle.std.specs.Prelude.{◌≡◌, ℕ, ◌+◌, ◌-◌, min, true, length, drop, replicate, None};
ghost use Rattle.cells.specs.Meaning.{Taken, Written, GivenBack, count_live};
ghost use Rattle.cells.specs.Lent.{front, meant, meant_small, Kept};
ghost use Rattle.chain.specs.Chains.{chain_cell, chained};

use crate::slots::ChainSlot;
use cells::lent::{free_slots, read_slot, write_slot};
use cells::records::CellRecord;
use cells::refusals::StoreRefusal;
use cells::store::CellStore;

// A store over lent slots whose free ones are linked: `free` is the first of them, or the capacity where there is none.
// Slots past the first 65535 are not used.
#[derive(Drop)]
pub struct ChainStore<'a> {
    slots: &'a mut [ChainSlot],
    capacity: u16,
    free: u16,
    live: u16,
    ghost sized: { capacity ≡ min (length slots.now) 65535 },
    ghost counted: { live ≡ count_live (meant chain_cell slots.now) },
    ghost linked: { chained (capacity - live) (front slots.now) free ≡ true },
}

impl<'a> ChainStore<'a> {
    // A store of the first 65535 slots, or of all where there are fewer; none is live, and each is linked to the next one.
    pub fn new(slots: &'a mut [ChainSlot]) -> ChainStore<'a>
        ensures empty { meant chain_cell result.slots.now ≡ replicate (min (length slots.old) 65535) None }
        ensures past { drop 65535 result.slots.now ≡ drop 65535 slots.old }
        ensures lent { result.slots.ghost_name ≡ slots.entry.ghost_name }
    {
        let capacity = free_slots(slots);
        ChainStore {
            slots,
            capacity,
            free: 0,
            live: 0,
        }
    }

    // The slots that the store was made over, as it leaves them.
    pub fn into_slots(self) -> &'a mut [ChainSlot]
        ensures { (result.ghost_name ≡ self.entry.slots.ghost_name) × (result.now ≡ self.entry.slots.now) }
    {
        let ChainStore {
            slots,
            capacity: _,
            free: _,
            live: _,
        } = self;
        slots
    }
}

// Reading and writing are a line each, over what both stores share. `kept` is a clause of each call that changes the store:
// what a call leaves as it was is no fact of one value.
impl CellStore for ChainStore<'_> {
    ghost cells = { λ s. meant chain_cell s.slots.now };

    ghost small = { λ s. meant_small chain_cell s.slots.now };

    #[inline(always)]
    fn take(&mut self, contents: CellRecord) -> Result<u16, StoreRefusal>
        ensures means { Taken (meant chain_cell self.old.slots.now) contents result (meant chain_cell self.new.slots.now) }
        ensures kept { Kept self.old.slots self.new.slots }
    {
        let head = self.free;
        if head >= self.capacity {
            return Err(StoreRefusal::NoFreeCell);
        }
        let ChainSlot::Free(next) = self.slots[head as usize] else {
            unreachable()
        };
        self.slots[head as usize] = ChainSlot::Live(contents);
        self.free = next;
        self.live += 1;
        Ok(head)
    }

    #[inline(always)]
    fn read(&self, cell: u16) -> Result<CellRecord, StoreRefusal> {
        read_slot(self.slots, cell)
    }

    #[inline(always)]
    fn write(&mut self, cell: u16, contents: CellRecord) -> Result<(), StoreRefusal>
        ensures means { Written (meant chain_cell self.old.slots.now) cell contents result (meant chain_cell self.new.slots.now) }
        ensures kept { Kept self.old.slots self.new.slots }
    {
        write_slot(self.slots, cell, contents)
    }

    #[inline(always)]
    fn give_back(&mut self, cell: u16) -> Result<(), StoreRefusal>
        ensures means { GivenBack (meant chain_cell self.old.slots.now) cell result (meant chain_cell self.new.slots.now) }
        ensures kept { Kept self.old.slots self.new.slots }
    {
        self.read(cell)?;
        self.slots[cell as usize] = ChainSlot::Free(self.free);
        self.free = cell;
        self.live -= 1;
        Ok(())
    }

    fn capacity(&self) -> u16 {
        self.capacity
    }

    fn live_count(&self) -> u16 {
        self.live
    }
}
