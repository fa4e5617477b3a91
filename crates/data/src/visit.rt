use cells::records::CellRecord;

// A cell that a walk has come to: its number, its record, and the work list after it.
#[derive(Clone, Copy)]
pub struct Visit {
    pub cell: u16,
    pub contents: CellRecord,
    pub rest: u32,
}
