ghost use Rattle.data.specs.Walks.{Drops};

use crate::refusals::WalkRefusal;
use crate::todo::Todo;
use crate::work_list::{END, add_fields, is_open, look, next_cell, rest_after};
use cells::store::CellStore;
use cells::values::Value;

// Gives back every cell of the tree that the value stands for, and answers how many.
pub fn drop_value<S: CellStore>(store: &mut S, value: Value) -> Result<u32, WalkRefusal>
    ensures { Drops (S.CellStore.cells store.old) value result (S.CellStore.cells store.new) }
{
    let mut todo = Todo { value, rest: END };
    let mut count: u32 = 0;
    // The list is threaded through the cells: the loop follows their numbers, and goes over no slice.
    'walk: while is_open(todo) {
        let cell = next_cell(todo);
        // not by `next_visit`, as in a size
        let contents = look(store, cell)?;
        let rest = rest_after(todo, contents.spare);
        store.give_back(cell as u16)?;
        todo = add_fields(store, contents, rest)?;
        count += 1;
    }
    Ok(count)
}
