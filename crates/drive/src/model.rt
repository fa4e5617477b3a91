use cells::records::CellRecord;

// The plain list that a store is compared with: its cells by number, each a record or none, and how many are live.
#[derive(Drop)]
pub struct Model<'m> {
    cells: &'m mut [Option<CellRecord>],
    live: usize,
}

impl<'m> Model<'m> {
    // A model in which no cell is live.
    pub fn new(cells: &'m mut [Option<CellRecord>]) -> Model<'m> {
        cells.fill(None);
        Model { cells, live: 0 }
    }

    pub fn capacity(&self) -> usize {
        self.cells.len()
    }

    pub fn live(&self) -> usize {
        self.live
    }

    // What a cell holds; past the capacity nothing.
    pub fn get(&self, cell: u16) -> Option<CellRecord> {
        self.cells.get(cell as usize).copied().flatten()
    }

    pub fn is_live(&self, cell: u16) -> bool {
        self.get(cell).is_some()
    }

    // Whether a cell is live and holds just this record.
    pub fn holds(&self, cell: u16, contents: CellRecord) -> bool {
        self.get(cell) == Some(contents)
    }

    // Makes a cell live with the contents.
    pub fn put(&mut self, cell: u16, contents: CellRecord) {
        if !self.is_live(cell) {
            self.live = self.live.saturating_add(1);
        }
        if let Some(place) = self.cells.get_mut(cell as usize) {
            *place = Some(contents);
        }
    }

    // Makes a cell free.
    pub fn clear(&mut self, cell: u16) {
        if self.is_live(cell) {
            self.live = self.live.saturating_sub(1);
        }
        if let Some(place) = self.cells.get_mut(cell as usize) {
            *place = None;
        }
    }
}
