// What a run is lent.
#[repr(C)]
#[derive(Clone, Copy)]
pub struct Sizes {
    // entries of the node list
    pub nodes: u32,
    pub cells: u32,
    // entries of the two stacks
    pub first: u32,
    pub second: u32,
    // steps
    pub allowance: u32,
}
