ghost use Rattle.std.specs.Prelude.{◌≡◌, ℕ, List};
ghost use Rattle.data.specs.Standing.{less};
ghost use Rattle.data.specs.Steps.{Links};
ghost use Rattle.cell_data.specs.Copying.{CleanCopies};

use cells::store::CellStore;
use cells::values::Value;
use data::copies::{copy_cells, has_room};
use data::refusals::WalkRefusal;
use data::work_list::{END, look};

// Gives back the cells that the spare numbers link from `head`.
fn give_list<S: CellStore>(store: &mut S, head: u32)
    ensures { (ns : List ℕ) → Links (S.CellStore.cells store.old) head ns → S.CellStore.cells store.new ≡ less ns (S.CellStore.cells store.old) }
{
    let mut next = head;
    // The list is threaded through the cells: the loop follows their numbers, and goes over no slice.
    'walk: while next != END {
        let Ok(contents) = look(store, next) else {
            return;
        };
        let Ok(_) = store.give_back(next as u16) else {
            return;
        };
        next = contents.spare;
    }
}

// Copies the tree that the value stands for, if enough cells are free. A copy that cannot go on gives all new cells back.
pub fn copy_value<S: CellStore>(store: &mut S, value: Value) -> Result<Value, WalkRefusal>
    ensures { CleanCopies (S.CellStore.cells store.old) value result (S.CellStore.cells store.new) }
{
    has_room(store, value)?;
    // A match, since the store gives cells back before the refusal goes on.
    match copy_cells(store, value) {
        Ok(copy) => Ok(copy),
        Err(left) => {
            give_list(store, left.waiting);
            give_list(store, left.finished);
            Err(WalkRefusal::Stuck)
        }
    }
}
