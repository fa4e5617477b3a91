ghost use Rattle.data.specs.Walks.{Sizes};

use crate::refusals::WalkRefusal;
use crate::todo::Todo;
use crate::work_list::{END, add_fields, is_open, look, next_cell, rest_after};
use cells::store::CellStore;
use cells::values::Value;

// The number of constructors of the tree that the value stands for.
pub fn size_of<S: CellStore>(store: &mut S, value: Value) -> Result<u32, WalkRefusal>
    ensures { Sizes (S.CellStore.cells store.old) value result (S.CellStore.cells store.new) }
{
    let limit = store.capacity() as u32;
    let mut todo = Todo { value, rest: END };
    let mut count: u32 = 0;
    // The list is threaded through the cells: the loop follows their numbers, and goes over no slice.
    'walk: while is_open(todo) {
        if count >= limit {
            return Err(WalkRefusal::Stuck);
        }
        // not by `next_visit`: with the record in a visit a size took up to a fifth longer
        let contents = look(store, next_cell(todo))?;
        let rest = rest_after(todo, contents.spare);
        todo = add_fields(store, contents, rest)?;
        count += 1;
    }
    Ok(count)
}
