// The place of the expression that the next step enters or hands to.
ghost use Rattle.std.specs.Prelude.{◌≡◌, ℕ, List, ◌∷◌};
ghost use Rattle.cells.specs.Meaning.{Cells};
ghost use Rattle.machine.specs.Mirrors.{Mirrors};
ghost use Rattle.machine.specs.Waiting.{Waits};
ghost use Rattle.machine.specs.declared.frame.Frame.{Frame as Waiting};
ghost use Rattle.program.specs.Programs.{Program};
ghost use Rattle.program.specs.Scopes.{Scope};
ghost use Rattle.program.specs.Standing.{Lays, at};
ghost use Rattle.rules.specs.Runs.{main_of};
ghost use Rattle.rules.specs.States.{State};
ghost use Rattle.rules.specs.States.{Frame as Expression};
ghost use Rattle.rules.specs.Steps.{Sizes, place_of_frame, step_place};
ghost use Rattle.run.specs.Places.{node_meant};

use machine::{Control, Frame, Machine, code_at};
use program::Compiled;

// The place of the expression at a node.
fn place_at(script: &Compiled, node: u16) -> u16
    ensures { (P : Program) → result ≡ (at P script.now.code node).place }
{
    code_at(script, node as usize).place
}

// The node of what waits; none for main's call.
fn node_of(frame: Frame) -> Option<u16>
    ensures { result ≡ node_meant frame }
{
    match frame {
        Frame::Test(at)
        | Frame::Arm(at)
        | Frame::Part(at, _)
        | Frame::Binding(at, _, _)
        | Frame::Leaving(at, _)
        | Frame::Tested(at)
        | Frame::Head(at)
        | Frame::Argument(at, _, _, _)
        | Frame::Field(at, _)
        | Frame::Body(at, _) => Some(at),
        Frame::Main => None,
    }
}

// The place of what waits.
fn frame_place(script: &Compiled, frame: Frame) -> u16
    ensures { (P : Program) (G : Scope) (f : Expression) (K : List Expression) (fs : List Waiting) → Lays script.now P → Waits P script.now.code G (f ∷ K) (frame ∷ fs)
        → result ≡ place_of_frame f }
{
    // Here and below, tried: by map_or the proofs didn't close.
    match node_of(frame) {
        Some(at) => place_at(script, at),
        None => script.main_place,
    }
}

// By what comes next.
pub fn next_place(machine: &Machine<'_, '_>) -> u16
    ensures { (P : Program) (Z : Sizes) (m₀ m : Cells) (s : State) → Mirrors P Z m₀ s machine.now m → result ≡ step_place (main_of P) s }
{
    match machine.control {
        Control::Opened => machine.script.main_place,
        Control::Enter(node) => place_at(machine.script, node),
        Control::Finished(_) => match machine.frames.top() {
            Some(frame) => frame_place(machine.script, frame),
            None => 0,
        },
        Control::Over => 0,
    }
}
