#![tactic(auto)]

ghost use Rattle.std.specs.Prelude.{◌≡◌, ℕ, ◌+◌, ◌-◌, ◌<◌, ◌≤◌, true, false, length, drop, replicate, is_ok, None, MatchOption, slice_index, slice_set};
ghost use Rattle.cells.specs.Meaning.{at, is_live, TakenAt, Taken, Written, GivenBack};
ghost use Rattle.shelf.specs.Shelves.{less, among, apart, FromShelf, less_small};

use cells::records::CellRecord;
use cells::refusals::StoreRefusal;
use cells::store::{CellStore, MOST_CELLS};

// How many cells a shelf keeps.
pub const PLACES: usize = 16;

// A layer over any store that keeps up to sixteen cells given back and hands these out first. A cell on the shelf is
// live below and free above. The first `count` places have cells, the others the number of no cell.
// (`lent` is a clause of each call that changes the shelf: what a call leaves as it was is no fact of one value.)
#[derive(Drop)]
pub struct Shelf<'b, S> {
    below: &'b mut S,
    kept: [u16; PLACES],
    count: usize,
    ghost sixteen: { length kept ≡ 16 },
    ghost few: { count ≤ 16 },
    ghost bare: { drop count kept ≡ replicate (16 - count) 65535 },
    ghost once: { apart kept ≡ true },
}

impl<'b, S: CellStore> Shelf<'b, S> {
    // An empty shelf over `below`; it means what the store below means.
    pub fn new(below: &'b mut S) -> Shelf<'b, S>
        ensures means { less result.kept (S.CellStore.cells result.below.now) ≡ S.CellStore.cells below.old }
        ensures empty { result.count ≡ 0 }
        ensures lent { result.below.ghost_name ≡ below.entry.ghost_name }
    {
        Shelf {
            below,
            kept: [MOST_CELLS; PLACES],
            count: 0,
        }
    }

    // Gives every cell on the shelf back below. The store below then means what the shelf means, before and after.
    pub fn clear(&mut self)
        ensures means { S.CellStore.cells self.new.below.now ≡ less self.old.kept (S.CellStore.cells self.old.below.now) }
        ensures same { less self.new.kept (S.CellStore.cells self.new.below.now) ≡ less self.old.kept (S.CellStore.cells self.old.below.now) }
        ensures empty { self.new.count ≡ 0 }
        ensures lent { self.new.below.ghost_name ≡ self.old.below.ghost_name }
    {
        while let Some(cell) = self.pop() {
            let _ = self.below.give_back(cell);
        }
    }

    // The store below, which means what the shelf meant: every cell on the shelf is given back there.
    pub fn into_below(mut self) -> &'b mut S
        ensures means { S.CellStore.cells result.now ≡ less self.entry.kept (S.CellStore.cells self.entry.below.now) }
        ensures lent { result.ghost_name ≡ self.entry.below.ghost_name }
    {
        self.clear();
        let Shelf {
            below,
            kept: _,
            count: _,
        } = self;
        below
    }

    // Whether the number is on the shelf. A store is often used while its shelf is empty: then no place is looked at.
    #[inline(always)]
    fn has(&self, cell: u16) -> bool
        ensures { result ≡ among self.now.kept cell }
    {
        if self.count == 0 {
            return cell == MOST_CELLS;
        }
        self.kept.contains(&cell)
    }

    // Takes the last cell off the shelf, if there is one.
    #[inline(always)]
    fn pop(&mut self) -> Option<u16>
        ensures { MatchOption result
            ((self.old.count ≡ 0) × (self.new ≡ self.old))
            (λ cell. (self.new.count + 1 ≡ self.old.count) × (cell ≡ slice_index self.old.kept self.new.count) × (self.new.kept ≡ slice_set self.old.kept self.new.count 65535) × (self.new.below ≡ self.old.below)) }
    {
        self.count = self.count.checked_sub(1)?;
        let cell = self.kept[self.count];
        self.kept[self.count] = MOST_CELLS;
        Some(cell)
    }

    // Takes cells off the shelf, the last given back first, until one is live below, and writes the contents there.
    #[inline(always)]
    fn reuse(&mut self, contents: CellRecord) -> Option<u16>
        ensures found { MatchOption result
            ((S.CellStore.cells self.new.below.now ≡ less self.old.kept (S.CellStore.cells self.old.below.now)) × (self.new.kept ≡ replicate 16 65535) × ((k : ℕ) → among self.old.kept k ≡ true → at (S.CellStore.cells self.old.below.now) k ≡ None))
            (λ i. TakenAt (less self.old.kept (S.CellStore.cells self.old.below.now)) contents i (less self.new.kept (S.CellStore.cells self.new.below.now)) × (among self.old.kept i ≡ true)) }
        ensures lent { self.new.below.ghost_name ≡ self.old.below.ghost_name }
    {
        while let Some(top) = self.pop() {
            if self.below.write(top, contents).is_ok() {
                return Some(top);
            }
        }
        None
    }
}

impl<S: CellStore> CellStore for Shelf<'_, S> {
    ghost cells = { λ s. less s.kept (S.CellStore.cells s.below.now) };

    ghost small = { λ s. less_small s.kept (S.CellStore.cells s.below.now) (S.CellStore.small s.below.now) };

    // Where a cell on the shelf is live below, one of these is handed out.
    #[inline(always)]
    fn take(&mut self, contents: CellRecord) -> Result<u16, StoreRefusal>
        ensures means { Taken (less self.old.kept (S.CellStore.cells self.old.below.now)) contents result (less self.new.kept (S.CellStore.cells self.new.below.now)) }
        ensures first { (k : ℕ) → among self.old.kept k ≡ true → is_live (S.CellStore.cells self.old.below.now) k ≡ true → FromShelf self.old.kept result }
        ensures lent { self.new.below.ghost_name ≡ self.old.below.ghost_name }
    {
        match self.reuse(contents) {
            Some(cell) => Ok(cell),
            None => self.below.take(contents),
        }
    }

    #[inline(always)]
    fn read(&self, cell: u16) -> Result<CellRecord, StoreRefusal> {
        if self.has(cell) {
            return Err(StoreRefusal::DeadCell);
        }
        self.below.read(cell)
    }

    #[inline(always)]
    fn write(&mut self, cell: u16, contents: CellRecord) -> Result<(), StoreRefusal>
        ensures means { Written (less self.old.kept (S.CellStore.cells self.old.below.now)) cell contents result (less self.new.kept (S.CellStore.cells self.new.below.now)) }
        ensures same { self.new.kept ≡ self.old.kept }
        ensures lent { self.new.below.ghost_name ≡ self.old.below.ghost_name }
    {
        if self.has(cell) {
            return Err(StoreRefusal::DeadCell);
        }
        self.below.write(cell, contents)
    }

    // While the shelf has fewer than sixteen cells, the cell goes onto it and nothing changes below; else it goes back below.
    #[inline(always)]
    fn give_back(&mut self, cell: u16) -> Result<(), StoreRefusal>
        ensures means { GivenBack (less self.old.kept (S.CellStore.cells self.old.below.now)) cell result (less self.new.kept (S.CellStore.cells self.new.below.now)) }
        ensures keeps { self.old.count < 16 → (is_ok result ≡ true → among self.new.kept cell ≡ true) × (S.CellStore.cells self.new.below.now ≡ S.CellStore.cells self.old.below.now) }
        ensures full { self.old.count ≡ 16 → self.new.kept ≡ self.old.kept }
        ensures lent { self.new.below.ghost_name ≡ self.old.below.ghost_name }
    {
        if self.has(cell) {
            return Err(StoreRefusal::DeadCell);
        }
        if self.count >= PLACES {
            return self.below.give_back(cell);
        }
        self.below.read(cell)?;
        self.kept[self.count] = cell;
        self.count += 1;
        Ok(())
    }

    fn capacity(&self) -> u16 {
        self.below.capacity()
    }

    // The live cells below, less those on the shelf, each of which is looked up there.
    fn live_count(&self) -> u16 {
        let mut live = self.below.live_count();
        for cell in self.kept {
            if self.below.read(cell).is_ok() {
                live -= 1;
            }
        }
        live
    }
}
