// Main's call.
// `steady` is a clause of each row: what a call leaves as it was is no fact of one value.
ghost use Rattle.std.specs.Prelude.{◌≡◌, ℕ, List};
ghost use Rattle.cells.specs.Meaning.{Cells};
ghost use Rattle.machine.specs.Mirrors.{Mirrors, Moved, Steady};
ghost use Rattle.program.specs.Programs.{Program};
ghost use Rattle.rules.specs.Runs.{main_of};
ghost use Rattle.rules.specs.States.{Environment, Account, st, opened};
ghost use Rattle.rules.specs.States.{Frame as Waits};
ghost use Rattle.rules.specs.Steps.{Sizes, main_called};

use machine::{Control, Frame, Machine, function_at};
use rules::FaultKind;

// Main waits for its body's value, and its body is next.
pub fn call_main(machine: &mut Machine<'_, '_>) -> Result<(), FaultKind>
    ensures steady { Steady machine.old machine.new }
    ensures law { (P : Program) (Z : Sizes) (m₀ m : Cells) (K : List Waits) (env : Environment) (a : Account)
        → Mirrors P Z m₀ (st K env opened a) machine.old m
        → Moved P Z m₀ (st K env opened a) (main_called P Z K env a (main_of P)) result machine.new m }
{
    let main = function_at(machine.script, machine.script.main as usize);
    machine.wait(Frame::Main, main.body)
}
