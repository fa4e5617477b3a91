ghost use Rattle.std.specs.Prelude.{◌≡◌};
ghost use Rattle.cells.specs.Records.{row};
ghost use Rattle.data.specs.WorkLists.{Looks, open_value, Visits, Pushes, Adds, AddsAll};
ghost use Rattle.data.specs.Steps.{next_of, rest_of, PushSteps, AddSteps, RowSteps};

use crate::refusals::WalkRefusal;
use crate::todo::Todo;
use crate::visit::Visit;
use cells::records::CellRecord;
use cells::store::CellStore;
use cells::values::Value;

// No cell has this number: it ends a work list.
pub const END: u32 = 65535;

// The record of the cell with this number; stuck where it is not live.
#[inline(always)]
pub fn look<S: CellStore>(store: &S, number: u32) -> Result<CellRecord, WalkRefusal>
    ensures { Looks (S.CellStore.cells store.now) number result }
{
    if number >= END {
        return Err(WalkRefusal::Stuck);
    }
    // with `?` or `map_err` in place of this `match` a size and a drop over a shelf took half as long again
    match store.read(number as u16) {
        Ok(contents) => Ok(contents),
        Err(_) => Err(WalkRefusal::Stuck),
    }
}

// Whether anything is ahead.
#[inline(always)]
pub fn is_open(todo: Todo) -> bool
    ensures { result ≡ open_value todo }
{
    matches!(todo.value, Value::Cell(_)) || todo.rest != END
}

// The number of the cell that comes next: the value's, or else the first of the work list.
#[inline(always)]
pub(crate) fn next_cell(todo: Todo) -> u32
    ensures { result ≡ next_of todo.value todo.rest }
{
    match todo.value {
        Value::Cell(number) => number,
        _ => todo.rest,
    }
}

// The work list behind the cell that comes next, which has this spare number.
#[inline(always)]
pub(crate) fn rest_after(todo: Todo, spare: u32) -> u32
    ensures { result ≡ rest_of todo.value todo.rest spare }
{
    match todo.value {
        Value::Cell(_) => todo.rest,
        _ => spare,
    }
}

// The cell that comes next: the value's, or else the first of the work list.
#[inline(always)]
pub fn next_visit<S: CellStore>(store: &S, todo: Todo) -> Result<Visit, WalkRefusal>
    ensures { Visits (S.CellStore.cells store.now) todo result }
{
    let cell = next_cell(todo);
    let contents = look(store, cell)?;
    Ok(Visit {
        cell: cell as u16,
        contents,
        rest: rest_after(todo, contents.spare),
    })
}

// Puts a value on the work list if it is data, and answers the list's new first cell.
#[inline(always)]
pub fn push<S: CellStore>(store: &mut S, value: Value, head: u32) -> Result<u32, WalkRefusal>
    ensures steps { PushSteps (S.CellStore.cells store.old) value head result (S.CellStore.cells store.new) }
    ensures law { Pushes (S.CellStore.cells store.old) value head result (S.CellStore.cells store.new) }
{
    let Value::Cell(number) = value else {
        return Ok(head);
    };
    let contents = look(store, number)?;
    store.write(number as u16, contents.with_spare(head))?;
    Ok(number)
}

// Puts a field ahead if it is data; the value that was at hand goes onto the work list.
#[inline(always)]
pub fn add_field<S: CellStore>(store: &mut S, field: Value, todo: Todo) -> Result<Todo, WalkRefusal>
    ensures steps { AddSteps (S.CellStore.cells store.old) field todo.value todo.rest result (S.CellStore.cells store.new) }
    ensures law { Adds (S.CellStore.cells store.old) field todo result (S.CellStore.cells store.new) }
{
    match field {
        Value::Cell(_) => {
            let rest = push(store, todo.value, todo.rest)?;
            Ok(Todo { value: field, rest })
        }
        _ => Ok(todo),
    }
}

// Puts the fields that are data ahead: the first of them at hand, the others on the work list. So a link is written
// only where there are several.
#[inline(always)]
pub fn add_fields<S: CellStore>(
    store: &mut S,
    contents: CellRecord,
    rest: u32,
) -> Result<Todo, WalkRefusal>
    ensures steps { RowSteps (S.CellStore.cells store.old) (row contents) rest result (S.CellStore.cells store.new) }
    ensures law { AddsAll (S.CellStore.cells store.old) (row contents) rest result (S.CellStore.cells store.new) }
{
    let mut todo = Todo {
        value: Value::Unit,
        rest,
    };
    for field in contents.fields[..contents.used as usize].iter().rev() {
        todo = add_field(store, *field, todo)?;
    }
    Ok(todo)
}
