// A run that is open.
ghost use Rattle.std.specs.Prelude.{◌≡◌, ◌↔◌, IsTrue};
ghost use Rattle.machine.specs.declared.control.Control.TheVariants.{Over};

use machine::{Control, Machine};
use rules::Fault;

// Its machine, how many steps it has taken of those that it is allowed, and its fault if it has one.
#[derive(Drop)]
pub struct Run<'a, 'v> {
    pub(crate) machine: Machine<'a, 'v>,
    pub(crate) allowance: u32,
    pub(crate) steps: u32,
    pub(crate) fault: Option<Fault>,
}

// Whether a run has ended.
pub(crate) fn is_over(machine: &Machine<'_, '_>) -> bool
    ensures { IsTrue result ↔ machine.now.control ≡ Over }
{
    matches!(machine.control, Control::Over)
}

// Stands for a run that must be closed: opening makes one, and only closing takes it. It has no Drop, so a program that lets one go does
// not build.
pub struct OpenRun {
    pub(crate) open: (),
}
