// What a call of a function of the basis comes to.
use super::{ArithmeticFault, Print};

#[derive(Clone, Copy, PartialEq, Eq)]
pub enum Applied {
    // the result
    Int(i32),
    Bool(bool),
    // prints this, and the result is unit
    Prints(Print),
    // reads the next byte of the input: the result is that byte, or -1 at the input's end
    Reads,
    // there is no result
    Faults(ArithmeticFault),
    // the arguments are not those that the function takes, by their number or their types
    Mismatch,
}
