// Reading the tables of a script. Past the end of a table stands what no script uses.
ghost use Rattle.std.specs.Prelude.{◌≡◌, ◌+◌, ◌<◌, ◌≢◌, slice_index, slice_index_or};
ghost use Rattle.std.specs.List.{slice_get};
ghost use Rattle.machine.specs.Holding.{full_value};
ghost use Rattle.stack.specs.Items.{tops};
ghost use Rattle.program.specs.Standing.{no_code, no_function};

use super::Slot;
use cells::values::Value;
use program::{Code, Compiled, FunctionCode, Op};
use stack::Stack;

// What stands at a node.
pub fn code_at(script: &Compiled, node: usize) -> Code
    ensures used { result.op ≢ Op.Unused → node < 4096 }
    ensures code { result ≡ slice_index_or script.now.code node no_code }
{
    let unused = Code {
        op: Op::Unused,
        place: 0,
        past: 0,
    };
    script.code.get(node).copied().unwrap_or(unused)
}

// The node behind this one.
pub fn after(node: u16) -> u16
    ensures { node < 65535 → result ≡ node + 1 }
{
    node.saturating_add(1)
}

// A define by its number among the defines.
pub fn function_at(script: &Compiled, number: usize) -> FunctionCode
    ensures { result ≡ slice_index_or script.now.functions number no_function }
{
    let none = FunctionCode { body: 0, arity: 0 };
    script.functions.get(number).copied().unwrap_or(none)
}

// The node of a val's expression.
pub fn val_at(script: &Compiled, number: usize) -> u16
    ensures { result ≡ slice_index script.now.vals number }
{
    script.vals.get(number).copied().unwrap_or(0)
}

// The value in the slot that lies so deep, if it is full.
pub fn value_at(slots: &Stack<'_, Slot>, depth: usize) -> Option<Value>
    ensures { result ≡ full_value (slice_get (tops slots.now) depth) }
{
    slots.at_depth(depth)?
}
