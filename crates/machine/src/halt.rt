// Why a step that may print is not taken.
ghost use Rattle.std.specs.Prelude.{◌≡◌, None};
ghost use Rattle.machine.specs.declared.halt.Halt.TheVariants as halt;
ghost use Rattle.rules.specs.declared.fault.FaultKind.TheVariants as kind;

use basis::Basis;
use rules::FaultKind;
use stack::Full;

// Both cases stop the step, so neither is an error beside a value.
#[derive(Clone, Copy, PartialEq, Eq)]
pub enum Halt {
    // it faults, for arithmetic in this function of the basis
    Failed(FaultKind, Option<Basis>),
    // it would print more than fits
    OutputFull,
}

// A fault that is not for arithmetic.
impl From<FaultKind> for Halt {
    ghost from_gives = { λ k h. h ≡ halt.Failed k None };

    fn from(kind: FaultKind) -> Halt {
        Halt::Failed(kind, None)
    }
}

// A push finds no room.
impl From<Full> for Halt {
    ghost from_gives = { λ _ h. h ≡ halt.Failed kind.StackFull None };

    fn from(_full: Full) -> Halt {
        Halt::Failed(FaultKind::StackFull, None)
    }
}
