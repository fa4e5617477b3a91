ghost use Rattle.std.specs.Prelude.{◌≡◌, true};
ghost use Rattle.cells.specs.Meaning.{is_live};
ghost use Rattle.data.specs.Walks.{Copies};
ghost use Rattle.data.specs.Copying.{CopiesCell, FieldsCopied, Turned, CopiesCells, Rooms};

use crate::refusals::WalkRefusal;
use crate::sizes::size_of;
use crate::unfinished::Unfinished;
use crate::work_list::{END, look};
use cells::records::CellRecord;
use cells::store::CellStore;
use cells::values::Value;

// Copies the record of a cell into a new one, which waits before `head` until its fields are copied, too.
#[inline(always)]
fn copy_cell<S: CellStore>(store: &mut S, number: u32, head: u32) -> Result<u32, WalkRefusal>
    ensures { CopiesCell (S.CellStore.cells store.old) number head result (S.CellStore.cells store.new) }
{
    let contents = look(store, number)?;
    let cell = store.take(contents.with_spare(head))?;
    Ok(cell as u32)
}

// Puts new cells in place of those that the fields name, the last field first; the new cells wait before `head`. The
// answer is the first of the cells that wait then, as an error where a field cannot be copied.
#[inline(always)]
fn copy_fields<S: CellStore>(
    store: &mut S,
    contents: &mut CellRecord,
    head: u32,
) -> Result<u32, u32>
    ensures { FieldsCopied (S.CellStore.cells store.old) contents.old head contents.new (S.CellStore.cells store.new) result }
{
    let mut top = head;
    // by place, since `set_field` puts a field at a place: it keeps what the type says of a record
    for i in (0..contents.used as usize).rev() {
        if let Value::Cell(number) = contents.fields[i] {
            let cell = copy_cell(store, number, top).map_err(|_| top)?;
            contents.set_field(i, Value::Cell(cell));
            top = cell;
        }
    }
    Ok(top)
}

// Copies the fields of the new cell that waits first, and puts it before the cells that are finished.
#[inline(always)]
fn copy_turn<S: CellStore>(store: &mut S, cell: u32, finished: u32) -> Result<u32, u32>
    requires { is_live (S.CellStore.cells store.old) cell ≡ true }
    ensures { Turned (S.CellStore.cells store.old) cell finished result (S.CellStore.cells store.new) }
{
    let Ok(contents) = look(store, cell) else {
        unreachable()
    };
    let mut copy = contents;
    let turn = copy_fields(store, &mut copy, contents.spare);
    let Ok(_) = store.write(cell as u16, copy.with_spare(finished)) else {
        unreachable()
    };
    turn
}

// Copies the tree whose root is this cell into free cells; it has no more cells than are live.
fn copy_data<S: CellStore>(store: &mut S, number: u32) -> Result<Value, Unfinished>
    ensures { CopiesCells (S.CellStore.cells store.old) (Value.Cell number) result (S.CellStore.cells store.new) }
{
    let limit = store.live_count() as u32;
    // The walk's own refusal is dropped here: nothing waits yet, and the caller is told so.
    let first = copy_cell(store, number, END).map_err(|_| Unfinished {
        waiting: END,
        finished: END,
    })?;
    let mut waiting = first;
    let mut finished = END;
    let mut count: u32 = 0;
    'walk: while waiting != END {
        // The list is threaded through the cells; the count is the walk's measure and its limit, no index.
        if count >= limit {
            return Err(Unfinished { waiting, finished });
        }
        let top = copy_turn(store, waiting, finished).map_err(|top| Unfinished {
            waiting: top,
            finished: waiting,
        })?;
        finished = waiting;
        waiting = top;
        count += 1;
    }
    Ok(Value::Cell(first))
}

// Copies the tree that the value stands for into free cells. A copy that cannot go on leaves its new cells to the caller.
pub fn copy_cells<S: CellStore>(store: &mut S, value: Value) -> Result<Value, Unfinished>
    ensures { CopiesCells (S.CellStore.cells store.old) value result (S.CellStore.cells store.new) }
{
    match value {
        Value::Cell(number) => copy_data(store, number),
        _ => Ok(value),
    }
}

// Refuses a copy for which too few cells are free. The cells are counted only where they may be too few: a tree has no
// more cells than are live.
pub fn has_room<S: CellStore>(store: &mut S, value: Value) -> Result<(), WalkRefusal>
    ensures { Rooms (S.CellStore.cells store.old) value result (S.CellStore.cells store.new) }
{
    let live = store.live_count();
    let free = store.capacity() - live;
    if free >= live {
        return Ok(());
    }
    let count = size_of(store, value)?;
    if count > free as u32 {
        return Err(WalkRefusal::NoFreeCell);
    }
    Ok(())
}

// Copies the tree that the value stands for, if enough cells are free. Stuck, it leaves its new cells live.
pub fn copy_value<S: CellStore>(store: &mut S, value: Value) -> Result<Value, WalkRefusal>
    ensures { Copies (S.CellStore.cells store.old) value result (S.CellStore.cells store.new) }
{
    has_room(store, value)?;
    copy_cells(store, value).map_err(|_| WalkRefusal::Stuck)
}
