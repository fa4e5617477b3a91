ghost use Rattle.std.specs.Prelude.{refl};
ghost use Rattle.chain.specs.Chains.{chain_cell};
ghost use Rattle.chain.specs.declared.slots.ChainSlot.TheVariants as slot;

use cells::lent::Slot;
use cells::records::CellRecord;

// A place for a cell of the chain store: free, with the number of the next free cell, or live.
#[derive(Clone, Copy, Debug, PartialEq, Eq)]
pub enum ChainSlot {
    Free(u16),
    Live(CellRecord),
}

impl Slot for ChainSlot {
    ghost cell = { chain_cell };

    ghost holding = { λ r. slot.Live r };

    ghost before = { λ n. slot.Free n };

    ghost held = { λ r. refl };

    ghost empty = { λ n. refl };

    #[inline(always)]
    fn record(&self) -> Option<&CellRecord> {
        match self {
            ChainSlot::Live(contents) => Some(contents),
            ChainSlot::Free(_) => None,
        }
    }

    #[inline(always)]
    fn live(contents: CellRecord) -> ChainSlot {
        ChainSlot::Live(contents)
    }

    #[inline(always)]
    fn free(next: u16) -> ChainSlot {
        ChainSlot::Free(next)
    }
}
