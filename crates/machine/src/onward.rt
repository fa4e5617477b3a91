// How an expression goes on: the frame that waits from now on, and the node of the part that comes next.
use super::Frame;

#[derive(Clone, Copy)]
pub struct Onward {
    pub frame: Frame,
    pub node: u16,
}
