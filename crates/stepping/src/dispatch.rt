// A finished value is handed to the expression that waits for it.
// `steady` and `spares` are clauses of each row: what a call leaves as it was is no fact of one value.
ghost use Rattle.std.specs.Prelude.{◌≡◌, ℕ, List, ◌∷◌};
ghost use Rattle.cells.specs.Meaning.{Cells};
ghost use Rattle.data.specs.Trees.{Tree};
ghost use Rattle.machine.specs.Mirrors.{Hands, Printed, Spares, Speaks, Steady};
ghost use Rattle.program.specs.Programs.{Program};
ghost use Rattle.rules.specs.States.{Environment, Account, st};
ghost use Rattle.rules.specs.States.{Frame as Waits, finished as has_finished};
ghost use Rattle.rules.specs.Steps.{Sizes};
ghost use Rattle.rules.specs.Steps.{hand as hands};

use cells::store::CellStore;
use cells::values::Value;
use handing::{
    hand_argument, hand_arm, hand_binding, hand_field, hand_head, hand_leaving, hand_main,
    hand_part, hand_test, hand_tested,
};
use machine::{Frame, Halt, Machine, unprinted};

// By what waits. These are all frames there are, and a run keeps them as values on a stack: so a match, and no closures.
// `Leaving` and `Body` stand apart: each rests on a clause of its own of `hand_leaving`, and one proof for both would ask which again.
pub fn hand<S: CellStore>(
    machine: &mut Machine<'_, '_>,
    store: &mut S,
    out: &mut [u8],
    frame: Frame,
    value: Value,
) -> Result<usize, Halt>
    ensures steady { Steady machine.old machine.new }
    ensures spares { Spares result out.old out.new }
    ensures law { (P : Program) (Z : Sizes) (m₀ : Cells) (f : Waits) (K : List Waits) (env : Environment) (a : Account) (t : Tree)
        → Hands P Z m₀ f K env a t frame value machine.old (S.CellStore.cells store.old) → Speaks P machine.old.text.now t
        → Printed P Z m₀ (st (f ∷ K) env (has_finished t) a) out.old (hands P Z f K env a t) result machine.new (S.CellStore.cells store.new) out.new }
{
    match frame {
        Frame::Test(at) => unprinted(hand_test(machine, at, value)),
        Frame::Arm(at) => unprinted(hand_arm(machine, at, value)),
        Frame::Part(at, next) => unprinted(hand_part(machine, store, at, next, value)),
        Frame::Binding(at, next, count) => unprinted(hand_binding(machine, at, next, count, value)),
        Frame::Leaving(at, count) => unprinted(hand_leaving(machine, store, at, count, value)),
        Frame::Tested(at) => unprinted(hand_tested(machine, store, at, value)),
        Frame::Head(at) => hand_head(machine, out, at, value),
        Frame::Argument(at, next, held, function) => hand_argument(
            machine, out, at, next, held, function, value,
        ),
        Frame::Field(at, next) => unprinted(hand_field(machine, store, at, next, value)),
        Frame::Body(at, count) => unprinted(hand_leaving(machine, store, at, count, value)),
        Frame::Main => unprinted(hand_main(machine, store, value)),
    }
}
