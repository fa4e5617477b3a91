// What comes next in a run.
use cells::values::Value;

#[derive(Clone, Copy)]
pub enum Control {
    // main is called
    Opened,
    // the expression at this node is entered
    Enter(u16),
    // this value is finished, and is handed over
    Finished(Value),
    // nothing: the run has ended
    Over,
}
