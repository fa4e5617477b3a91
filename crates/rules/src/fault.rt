// Why a run stopped, and where.
ghost use Rattle.std.specs.Prelude.{◌≡◌};
ghost use Rattle.rules.specs.Faults.{number_of, carried, store_fault, walk_fault};
ghost use Rattle.rules.specs.Steps.{fault_kind};
ghost use Rattle.rules.specs.declared.fault.FaultKind.TheVariants as kind;

use basis::{ArithmeticFault, Basis};
use cells::refusals::StoreRefusal;
use data::refusals::WalkRefusal;
use layout::Word;
use stack::Full;

// Each case with its number.
#[derive(Clone, Copy, PartialEq, Eq)]
pub enum FaultKind {
    // no branch of a case fits the tested value
    NoBranch = 31,
    // a division by 0
    ZeroDivisor = 32,
    // a shift by an amount outside 0 to 31
    BadShift = 33,
    // the step needs more cells than are free
    TooFewCells = 34,
    // a stack has too few entries for the step
    StackFull = 35,
    // the store is another or was changed in between
    Stuck = 36,
    // the run has taken as many steps as it is allowed
    AllowanceSpent = 37,
}

impl FaultKind {
    // A method and no conversion: by the project's rule the enum's definition shows the numbers, and a contract gives them.
    pub fn number(self) -> u8
        ensures { result ≡ number_of self }
    {
        self as u8
    }

    // The refusal of the store that it carries: too few cells are free for a step exactly where the store would refuse to give them.
    pub fn store_refusal(self) -> Option<StoreRefusal>
        ensures { result ≡ carried self }
    {
        match self {
            FaultKind::TooFewCells => Some(StoreRefusal::NoFreeCell),
            _ => None,
        }
    }
}

// A push finds no room.
impl From<Full> for FaultKind {
    ghost from_gives = { λ _ k. k ≡ kind.StackFull };

    fn from(_full: Full) -> FaultKind {
        FaultKind::StackFull
    }
}

// A store has no free cell, or the number is not that of a live one.
impl From<StoreRefusal> for FaultKind {
    ghost from_gives = { λ refusal k. k ≡ store_fault refusal };

    fn from(refusal: StoreRefusal) -> FaultKind {
        match refusal {
            StoreRefusal::DeadCell => FaultKind::Stuck,
            StoreRefusal::NoFreeCell => FaultKind::TooFewCells,
        }
    }
}

// A copy needs more cells than are free, or a walk meets what stands for no tree.
impl From<WalkRefusal> for FaultKind {
    ghost from_gives = { λ refusal k. k ≡ walk_fault refusal };

    fn from(refusal: WalkRefusal) -> FaultKind {
        match refusal {
            WalkRefusal::NoFreeCell => FaultKind::TooFewCells,
            WalkRefusal::Stuck => FaultKind::Stuck,
        }
    }
}

// Arithmetic has no answer.
impl From<ArithmeticFault> for FaultKind {
    ghost from_gives = { λ fault k. k ≡ fault_kind fault };

    fn from(fault: ArithmeticFault) -> FaultKind {
        match fault {
            ArithmeticFault::ZeroDivisor => FaultKind::ZeroDivisor,
            ArithmeticFault::BadShift => FaultKind::BadShift,
        }
    }
}

// The function that a fault names: one of the basis, or a define or val of the script by its name in the text.
#[derive(Clone, Copy, PartialEq, Eq)]
pub enum Named {
    Basis(Basis),
    Text(Word),
}

#[derive(Clone, Copy, PartialEq, Eq)]
pub struct Fault {
    pub kind: FaultKind,
    // the place of the expression that the step enters or hands to
    pub place: u16,
    pub function: Named,
}
