// A step.
// `steady` and `spares` are clauses of each row: what a call leaves as it was is no fact of one value.
ghost use Rattle.std.specs.Prelude.{◌≡◌, ℕ};
ghost use Rattle.cells.specs.Meaning.{Cells};
ghost use Rattle.machine.specs.Mirrors.{Mirrors, Printed, Spares, Steady};
ghost use Rattle.program.specs.Programs.{Program};
ghost use Rattle.rules.specs.Runs.{main_of};
ghost use Rattle.rules.specs.States.{State};
ghost use Rattle.rules.specs.Steps.{Sizes};
ghost use Rattle.rules.specs.Steps.{step as steps};
ghost use Rattle.stepping.specs.Speaking.{Spoken};

use super::dispatch::hand;
use super::starting::call_main;
use cells::store::CellStore;
use entering::enter;
use machine::{Control, Halt, Machine, unprinted};
use rules::FaultKind;

// Whatever the machine mirrors, it does what the rules say, and then mirrors what they lead to. What is printed goes to the front of
// the slice. A run that has ended, or a value for which nothing waits, is stuck.
pub fn step<S: CellStore>(
    machine: &mut Machine<'_, '_>,
    store: &mut S,
    out: &mut [u8],
) -> Result<usize, Halt>
    ensures steady { Steady machine.old machine.new }
    ensures spares { Spares result out.old out.new }
    ensures law { (P : Program) (Z : Sizes) (m₀ : Cells) (s : State)
        → Mirrors P Z m₀ s machine.old (S.CellStore.cells store.old) → Spoken P s
        → Printed P Z m₀ s out.old (steps P Z (main_of P) s) result machine.new (S.CellStore.cells store.new) out.new }
{
    match machine.control {
        Control::Opened => unprinted(call_main(machine)),
        Control::Enter(node) => unprinted(enter(machine, store, node)),
        Control::Finished(value) => {
            let frame = machine.frames.top().ok_or(FaultKind::Stuck)?;
            hand(machine, store, out, frame, value)
        }
        Control::Over => Err(Halt::from(FaultKind::Stuck)),
    }
}
