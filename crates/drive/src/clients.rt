// What a caller knows after its calls, proved from the contracts of the stores and the laws of cells alone.
ghost use Rattle.std.specs.Prelude.{◌≡◌, ◌+◌, ◌≢◌, drop, Some, MatchResult};
ghost use Rattle.cells.specs.Meaning.{at, count_live};

use cells::records::CellRecord;
use cells::refusals::StoreRefusal;
use cells::store::CellStore;
use chain::slots::ChainSlot;
use chain::store::ChainStore;

// Uses a chain store over the slots and lets it go. The slots that no store uses are as they were.
pub fn use_front(slots: &mut [ChainSlot], contents: CellRecord)
    ensures { drop 65535 slots.new ≡ drop 65535 slots.old }
{
    let mut store = ChainStore::new(slots);
    let _ = store.take(contents);
    let _ = store.write(0, contents);
    let _ = store.give_back(0);
}

// Takes two cells; where the second is refused, the first goes back and the store is as it was.
pub fn take_two<S: CellStore>(
    store: &mut S,
    a: CellRecord,
    b: CellRecord,
) -> Result<(u16, u16), StoreRefusal>
    ensures { MatchResult result
        (λ p. (p.0 ≢ p.1) × (at (S.CellStore.cells store.new) p.0 ≡ Some a) × (at (S.CellStore.cells store.new) p.1 ≡ Some b) × (count_live (S.CellStore.cells store.new) ≡ count_live (S.CellStore.cells store.old) + 2))
        (λ _. S.CellStore.cells store.new ≡ S.CellStore.cells store.old) }
{
    let first = store.take(a)?;
    // A match, since the first cell goes back before the refusal goes on.
    match store.take(b) {
        Ok(second) => Ok((first, second)),
        Err(refusal) => {
            let _ = store.give_back(first);
            Err(refusal)
        }
    }
}
