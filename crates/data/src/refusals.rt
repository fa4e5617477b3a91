ghost use Rattle.std.specs.Prelude.{◌≡◌};
ghost use Rattle.data.specs.Refusals.{refusal_number};
ghost use Rattle.data.specs.declared.refusals.WalkRefusal.TheVariants as refusal;

use cells::refusals::StoreRefusal;

// Why a walk refuses.
#[derive(Clone, Copy, PartialEq, Eq)]
pub enum WalkRefusal {
    // fewer cells are free than a copy needs
    NoFreeCell = 22,
    // the value stands for no tree: the walk met a dead cell, or more cells than there are
    Stuck = 36,
}

impl WalkRefusal {
    // The refusal's number.
    // A method and no conversion: by the project's rule the enum's definition shows the numbers, and a contract gives them.
    pub fn number(self) -> u8
        ensures { result ≡ refusal_number self }
    {
        self as u8
    }
}

// A walk that its store refuses is stuck, whatever the store's reason.
impl From<StoreRefusal> for WalkRefusal {
    ghost from_gives = { λ e r. r ≡ refusal.Stuck };

    fn from(_: StoreRefusal) -> WalkRefusal {
        WalkRefusal::Stuck
    }
}
