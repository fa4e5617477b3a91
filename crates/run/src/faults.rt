// A fault, with its place and the function that it names.
ghost use Rattle.std.specs.Prelude.{◌≡◌, ℕ};
ghost use Rattle.cells.specs.Meaning.{Cells};
ghost use Rattle.machine.specs.Mirrors.{Mirrors};
ghost use Rattle.program.specs.Programs.{Program};
ghost use Rattle.rules.specs.Runs.{main_of, fault_there};
ghost use Rattle.rules.specs.States.{State};
ghost use Rattle.rules.specs.Steps.{Sizes, step_place};

use super::owners::owner_at;
use super::places::next_place;
use basis::Basis;
use machine::Machine;
use rules::{Fault, FaultKind, Named};

// The fault of the next step. Arithmetic names the function of the basis, any other fault the define or val around the place.
pub fn fault_at(machine: &Machine<'_, '_>, kind: FaultKind, function: Option<Basis>) -> Fault
    ensures { (P : Program) (Z : Sizes) (m₀ m : Cells) (s : State) → Mirrors P Z m₀ s machine.now m → result ≡ fault_there P (step_place (main_of P) s) kind function }
{
    let place = next_place(machine);
    let named = function.map_or_else(
        || Named::Text(owner_at(machine.script, place)),
        Named::Basis,
    );
    Fault {
        kind,
        place,
        function: named,
    }
}
