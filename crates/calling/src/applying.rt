// What a call of a function of the basis comes to.
ghost use Rattle.std.specs.Prelude.{◌≡◌};
ghost use Rattle.std.specs.List.{slice_get};
ghost use Rattle.calling.specs.Applying.{plain_value, plain_in, last_applied};
ghost use Rattle.machine.specs.Holding.{full_value};
ghost use Rattle.stack.specs.Items.{tops};

use basis::{Applied, Basis, Plain, apply_one, apply_two};
use cells::values::Value;
use machine::{Held, Slot, value_at};
use stack::Stack;

// A value as the basis takes it. Both types are of crates below, so this is no impl of From or TryFrom.
fn plain_of(value: Value) -> Option<Plain>
    ensures { result ≡ plain_value value }
{
    match value {
        Value::Int(number) => Some(Plain::Int(number)),
        Value::Bool(truth) => Some(Plain::Bool(truth)),
        Value::Sym(number) => Some(Plain::Sym(number)),
        Value::Unit => Some(Plain::Unit),
        Value::Function(_) | Value::Cell(_) => None,
    }
}

// The newest entry as the basis takes it.
fn newest(slots: &Stack<'_, Slot>) -> Option<Plain>
    ensures { result ≡ plain_in (full_value (slice_get (tops slots.now) 0)) }
{
    plain_of(value_at(slots, 0)?)
}

// The function on the arguments held and the last one.
pub fn applied_last(slots: &Stack<'_, Slot>, basis: Basis, held: Held, last: Value) -> Applied
    ensures { result ≡ last_applied basis held (full_value (slice_get (tops slots.now) 0)) last }
{
    let Some(second) = plain_of(last) else {
        return Applied::Mismatch;
    };
    match held {
        Held::None => apply_one(basis, second),
        Held::One => newest(slots).map_or(
            Applied::Mismatch,
            |first| apply_two(basis, first, second),
        ),
        Held::More => Applied::Mismatch,
    }
}
