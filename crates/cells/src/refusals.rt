ghost use Rattle.std.specs.Prelude.{◌≡◌};
ghost use Rattle.cells.specs.Refusals.{refusal_number};

// Why a store refuses a call. A refused call leaves the store as it was.
#[derive(Clone, Copy, Debug, PartialEq, Eq)]
pub enum StoreRefusal {
    // the number is not that of a live cell
    DeadCell = 20,
    // every cell is live
    NoFreeCell = 22,
}

impl StoreRefusal {
    // The refusal's number.
    // A method and no conversion: by the project's rule the enum's definition shows the numbers, and a contract gives them.
    pub fn number(self) -> u8
        ensures { result ≡ refusal_number self }
    {
        self as u8
    }
}
