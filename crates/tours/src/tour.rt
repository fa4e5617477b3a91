ghost use Rattle.std.specs.Prelude.{◌≡◌, is_some, IfOk};

use crate::seen::Seen;
use crate::shapes::{comb, leaning, list, pair, sixes, take, twos};
use crate::told::Told;
use cells::records::CellRecord;
use cells::store::CellStore;
use cells::values::Value;
use data::drops::drop_value;
use data::refusals::WalkRefusal;
use data::sizes::size_of;
use std::fmt;

// What was seen on one store: lists and trees, a comb, if it is told, a copy for which there was no room, and data that is
// no tree.
#[derive(Clone, Copy, PartialEq, Eq)]
pub struct Tour {
    pub list: Seen,
    pub leaning: Seen,
    pub twos: Seen,
    pub sixes: Seen,
    pub comb: Option<Seen>,
    pub short: Seen,
    pub ring: Seen,
    pub shared: Seen,
    pub dead: Seen,
}

impl fmt::Display for Tour {
    fn fmt<W: fmt::Write>(&self, f: &mut fmt::Formatter<W>) -> fmt::Result {
        let Tour {
            list,
            leaning,
            twos,
            sixes,
            comb,
            short,
            ring,
            shared,
            dead,
        } = *self;
        writeln!(f, "  list of 30000: {list}")?;
        writeln!(f, "  leaning list of 30000: {leaning}")?;
        writeln!(f, "  twos, 14 levels: {twos}")?;
        writeln!(f, "  sixes, 6 levels: {sixes}")?;
        if let Some(comb) = comb {
            writeln!(f, "  comb, 5000 levels: {comb}")?;
        }
        writeln!(f, "  list of 40000: {short}")?;
        writeln!(f, "  ring: {ring}")?;
        writeln!(f, "  shared: {shared}")?;
        write!(f, "  dead: {dead}")
    }
}

// Sizes a value, copies it, and drops both.
// It asks that `copy` may be called: no type says so of a closure that is passed in.
fn walk<S: CellStore, C: Fn(&mut S, Value) -> Result<Value, WalkRefusal>>(
    store: &mut S,
    copy: &C,
    all: bool,
    value: Value,
) -> Seen
    requires { C.IsAlwaysCallable copy.now }
{
    let size = Told(size_of(store, value));
    let answer = copy(store, value);
    let live = store.live_count();
    let together = all.then_some(live);
    let copied = answer.and_then(|copy| size_of(store, copy));
    let dropped = Told(drop_value(store, value));
    let copy_dropped = answer.map_or(Ok(0), |copy| drop_value(store, copy));
    Seen {
        size,
        copy: Told(copied),
        together,
        dropped,
        copy_dropped: Told(copy_dropped),
        live: store.live_count(),
    }
}

// A cell whose field is itself.
fn ring<S: CellStore>(store: &mut S) -> Result<Value, WalkRefusal> {
    let cell = take(store, CellRecord::bare(0))?;
    let value = Value::cell(cell);
    store.write(cell, pair(value, Value::Unit))?;
    Ok(value)
}

// Two fields that name one cell.
fn shared<S: CellStore>(store: &mut S) -> Result<Value, WalkRefusal> {
    let cell = take(store, CellRecord::bare(0))?;
    let value = Value::cell(cell);
    let both = take(store, pair(value, value))?;
    Ok(Value::cell(both))
}

// Gives back every cell: what is left of data that is no tree.
fn clear<S: CellStore>(store: &mut S) {
    for cell in 0..store.capacity() {
        let _ = store.give_back(cell);
    }
}

// Walks one value of each shape; the store is empty before and after each. All is told if that is wanted, else no comb,
// and not what was live after a copy.
// It asks that `copy` may be called: no type says so of a closure that is passed in.
pub fn walk_all<S: CellStore, C: Fn(&mut S, Value) -> Result<Value, WalkRefusal>>(
    store: &mut S,
    copy: &C,
    all: bool,
) -> Result<Tour, WalkRefusal>
    requires { C.IsAlwaysCallable copy.now }
    ensures { IfOk result (λ tour. is_some tour.comb ≡ all) }
{
    let value = list(store, 30000)?;
    let of_list = walk(store, copy, all, value);
    let value = leaning(store, 30000)?;
    let of_leaning = walk(store, copy, all, value);
    let value = twos(store, copy, 14)?;
    let of_twos = walk(store, copy, all, value);
    let value = sixes(store, copy, 6)?;
    let of_sixes = walk(store, copy, all, value);
    let mut of_comb = None;
    if all {
        let value = comb(store, 5000)?;
        of_comb = Some(walk(store, copy, all, value));
    }
    let value = list(store, 40000)?;
    let short = walk(store, copy, all, value);
    let value = ring(store)?;
    let of_ring = walk(store, copy, all, value);
    clear(store);
    let value = shared(store)?;
    let of_shared = walk(store, copy, all, value);
    clear(store);
    let dead = walk(store, copy, all, Value::Cell(70000));
    Ok(Tour {
        list: of_list,
        leaning: of_leaning,
        twos: of_twos,
        sixes: of_sixes,
        comb: of_comb,
        short,
        ring: of_ring,
        shared: of_shared,
        dead,
    })
}
