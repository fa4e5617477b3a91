// The state of a run: the script and its text, the input that is left, what waits, what is held, what comes next, and how many
// cells were taken and given back.
// What the slots hold outlives the script: a run that is let go of its script must still be closed.
// A row takes the machine and the store side by side: rows stand in the crates above, where Machine can have no methods.
// Each row adds to taken and given itself: a method would have to say of every other field that it stays.
use super::{Control, Frame, Slot};
use program::Compiled;
use stack::Stack;

#[derive(Drop)]
pub struct Machine<'a, 'v> {
    pub script: &'a Compiled,
    pub text: &'a [u8],
    pub input: &'a [u8],
    pub frames: Stack<'a, Frame>,
    pub slots: Stack<'v, Slot>,
    pub control: Control,
    pub taken: u64,
    pub given: u64,
}
