ghost use Rattle.std.specs.Prelude.{◌≡◌, ℕ, ◌≤◌, List, length, Option};
ghost use Rattle.cells.specs.declared.records.CellRecord.{CellRecord};
ghost use Rattle.cells.specs.Meaning.{Taken, Written, GivenBack, record_at, count_live};

use crate::records::CellRecord;
use crate::refusals::StoreRefusal;

// The most cells that a store has; as a number it is that of no cell.
pub const MOST_CELLS: u16 = 65535;

// A store of cells, by what it means: for each number below its capacity a live record, or none where the cell is free.
// No call changes the capacity or touches another cell; no question and no refusal changes anything.
pub trait CellStore {
    // the meaning
    ghost cells: { Self → List (Option CellRecord) };

    // a cell's number has 16 bits, and 65535 is none
    ghost small: { (s : Self) → length (cells s) ≤ 65535 };

    // Makes some free cell live with the contents, and answers its number; refuses exactly if no cell is free.
    fn take(&mut self, contents: CellRecord) -> Result<u16, StoreRefusal>
        ensures { Taken (cells self.old) contents result (cells self.new) };

    // The record of a live cell; refuses any other number.
    fn read(&self, cell: u16) -> Result<CellRecord, StoreRefusal>
        ensures { result ≡ record_at (cells self.now) cell };

    // Replaces the record of a live cell; refuses any other number.
    fn write(&mut self, cell: u16, contents: CellRecord) -> Result<(), StoreRefusal>
        ensures { Written (cells self.old) cell contents result (cells self.new) };

    // Makes a live cell free; refuses any other number.
    fn give_back(&mut self, cell: u16) -> Result<(), StoreRefusal>
        ensures { GivenBack (cells self.old) cell result (cells self.new) };

    // How many cells the store has.
    fn capacity(&self) -> u16
        ensures { result ≡ length (cells self.now) };

    // How many of them are live.
    fn live_count(&self) -> u16
        ensures { result ≡ count_live (cells self.now) };
}
