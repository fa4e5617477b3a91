// Shapes of data to walk.
use cells::records::CellRecord;
use cells::store::CellStore;
use cells::values::Value;
use data::refusals::WalkRefusal;

const NIL: u16 = 0;

const PAIR: u16 = 1;

const SIX: u16 = 2;

pub fn take<S: CellStore>(store: &mut S, contents: CellRecord) -> Result<u16, WalkRefusal> {
    store.take(contents).map_err(|_| WalkRefusal::NoFreeCell)
}

// A record of two fields, with a spare number that no walk may rely on.
pub fn pair(first: Value, second: Value) -> CellRecord {
    let unit = Value::Unit;
    CellRecord {
        constructor: PAIR,
        used: 2,
        fields: [first, second, unit, unit, unit, unit],
        spare: 99,
    }
}

// A cell with these six fields, as a value.
fn take_six<S: CellStore>(store: &mut S, fields: [Value; 6]) -> Result<Value, WalkRefusal> {
    let contents = CellRecord {
        constructor: SIX,
        used: 6,
        fields,
        spare: 99,
    };
    Ok(Value::cell(take(store, contents)?))
}

// A list of pairs, a number and the rest in each, with an empty cell at its end: `cells` cells in all, one at least.
pub fn list<S: CellStore>(store: &mut S, cells: u32) -> Result<Value, WalkRefusal> {
    let end = take(store, CellRecord::bare(NIL))?;
    let mut value = Value::cell(end);
    for i in 1..cells {
        let cell = take(store, pair(Value::Sym(i), value))?;
        value = Value::cell(cell);
    }
    Ok(value)
}

// A list the other way round: the rest stands before the number.
pub fn leaning<S: CellStore>(store: &mut S, cells: u32) -> Result<Value, WalkRefusal> {
    let mut value = Value::Bool(true);
    for i in 0..cells {
        let cell = take(store, pair(value, Value::Function(i)))?;
        value = Value::cell(cell);
    }
    Ok(value)
}

// A tree of so many levels, with two subtrees in each cell but those of the last level.
// It asks that `copy` may be called: no type says so of a closure that is passed in.
pub fn twos<S: CellStore, C: Fn(&mut S, Value) -> Result<Value, WalkRefusal>>(
    store: &mut S,
    copy: &C,
    levels: u32,
) -> Result<Value, WalkRefusal>
    requires { C.IsAlwaysCallable copy.now }
{
    let mut value = Value::Int(7);
    for _ in 0..levels {
        let other = copy(store, value)?;
        let cell = take(store, pair(value, other))?;
        value = Value::cell(cell);
    }
    Ok(value)
}

// A tree of so many levels, with six subtrees in each cell but those of the last level.
// It asks that `copy` may be called: no type says so of a closure that is passed in.
pub fn sixes<S: CellStore, C: Fn(&mut S, Value) -> Result<Value, WalkRefusal>>(
    store: &mut S,
    copy: &C,
    levels: u32,
) -> Result<Value, WalkRefusal>
    requires { C.IsAlwaysCallable copy.now }
{
    let mut value = Value::Int(7);
    for _ in 0..levels {
        let mut fields = [value; 6];
        for field in &mut fields[1..] {
            *field = copy(store, value)?;
        }
        value = take_six(store, fields)?;
    }
    Ok(value)
}

// A tree of so many levels, deep and wide: five empty cells and the rest in each cell.
pub fn comb<S: CellStore>(store: &mut S, levels: u32) -> Result<Value, WalkRefusal> {
    let mut value = Value::Bool(false);
    for _ in 0..levels {
        let mut fields = [value; 6];
        for (place, field) in fields.iter_mut().enumerate() {
            if place != 2 {
                *field = Value::cell(take(store, CellRecord::bare(NIL))?);
            }
        }
        value = take_six(store, fields)?;
    }
    Ok(value)
}
