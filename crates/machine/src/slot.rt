// An entry of the second stack: a bound name's value, or an argument handed over; none where a name's data is consumed.
use cells::values::Value;

pub type Slot = Option<Value>;
