// Calls of functions, of the basis or defined.
// `steady` and `spares` are clauses of each row: what a call leaves as it was is no fact of one value.
ghost use Rattle.std.specs.Prelude.{◌≡◌, ℕ, ◌+◌, ◌<◌, List, [], ◌∷◌, Some, length, drop};
ghost use Rattle.std.specs.List.{slice_get};
ghost use Rattle.calling.specs.Applying.{held_count};
ghost use Rattle.calling.specs.Ripe.{Ripe};
ghost use Rattle.cells.specs.Meaning.{Cells};
ghost use Rattle.data.specs.Trees.{Tree, none, more};
ghost use Rattle.grammar.specs.Trees.{Exprs};
ghost use Rattle.machine.specs.Holding.{names};
ghost use Rattle.machine.specs.Mirrors.{Rests, Mirrors, Moved, Printed, Steady, Spares, Speaks};
ghost use Rattle.machine.specs.Waiting.{PlacedAt, held_of};
ghost use Rattle.machine.specs.Waiting.{Waits as WaitsFor};
ghost use Rattle.program.specs.Programs.{Program, Define};
ghost use Rattle.rules.specs.States.{Environment, Account, State, calls, argument, head_value, next_argument};
ghost use Rattle.rules.specs.States.{Frame as Waits};
ghost use Rattle.rules.specs.Steps.{Sizes, take_arguments, call_define, apply};
ghost use Rattle.stack.specs.Items.{tops, room_of};

use super::applying::applied_last;
use super::concluding::conclude;
use basis::{Basis, apply_none};
use cells::values::Value;
use machine::{Frame, Halt, Held, Machine, Slot, function_at, unprinted};
use rules::FaultKind;

// How many arguments lie on the slots for a function of the basis.
// No function of the basis takes more than two, so of more none is counted.
fn count_of(held: Held) -> usize
    ensures { result ≡ held_count held }
{
    match held {
        Held::One => 1,
        Held::None | Held::More => 0,
    }
}

// A define is called: its arguments become its names, in the same entries, and its body is next.
fn enter_body(machine: &mut Machine<'_, '_>, at: u16, number: usize) -> Result<(), FaultKind>
    ensures steady { Steady machine.old machine.new }
    ensures law { (P : Program) (Z : Sizes) (m₀ m : Cells) (s : State) (k : ℕ) (K : List Waits) (env : Environment) (a : Account) (p : ℕ) (d : Define)
        → Ripe P Z m₀ k K env a machine.old m → PlacedAt P machine.old.script.now.code at p → slice_get P.defines number ≡ Some d
        → Moved P Z m₀ s (call_define P Z p d K a (take_arguments k env)) result machine.new m }
{
    let function = function_at(machine.script, number);
    machine.frames.replace_top(Frame::Body(at, function.arity));
    machine.go(function.body)
}

// A function without arguments is called.
pub fn call_bare(
    machine: &mut Machine<'_, '_>,
    out: &mut [u8],
    at: u16,
    function: u32,
) -> Result<usize, Halt>
    ensures steady { Steady machine.old machine.new }
    ensures spares { Spares result out.old out.new }
    ensures law { (P : Program) (Z : Sizes) (m₀ m : Cells) (s : State) (K : List Waits) (env : Environment) (a : Account) (p : ℕ) (es : Exprs) (t : Tree) (top : Frame) (others : List Frame)
        → Mirrors P Z m₀ s machine.old m → Rests P Z m₀ (head_value p es ∷ K) env a (Value.Function function ∷ []) (more t none) machine.old m
        → tops machine.old.frames ≡ top ∷ others → WaitsFor P machine.old.script.now.code (names env) K others → PlacedAt P machine.old.script.now.code at p
        → Printed P Z m₀ s out.old (apply P Z p (calls function) 0 K env a) result machine.new m out.new }
{
    match Basis::try_from(function) {
        Ok(basis) => conclude(machine, out, basis, 0, apply_none(basis)),
        Err(_) => unprinted(enter_body(machine, at, function as usize - Basis::COUNT as usize)),
    }
}

// A function is called with the arguments held and the last one.
pub fn call(
    machine: &mut Machine<'_, '_>,
    out: &mut [u8],
    at: u16,
    function: u32,
    held: Held,
    last: Value,
) -> Result<usize, Halt>
    ensures steady { Steady machine.old machine.new }
    ensures spares { Spares result out.old out.new }
    ensures law { (P : Program) (Z : Sizes) (m₀ m : Cells) (s : State) (k : ℕ) (K : List Waits) (env : Environment) (a : Account) (p : ℕ) (es : Exprs) (t : Tree) (top : Frame) (others : List Frame)
        → Mirrors P Z m₀ s machine.old m → Rests P Z m₀ (next_argument p (calls function) k es ∷ K) env a (last ∷ []) (more t none) machine.old m
        → tops machine.old.frames ≡ top ∷ others → WaitsFor P machine.old.script.now.code (drop k (names env)) K others → PlacedAt P machine.old.script.now.code at p
        → held ≡ held_of k → length (tops machine.old.slots) < room_of machine.old.slots → Speaks P machine.old.text.now t
        → Printed P Z m₀ s out.old (apply P Z p (calls function) (k + 1) K (argument t ∷ env) a) result machine.new m out.new }
{
    match Basis::try_from(function) {
        Ok(basis) => {
            let applied = applied_last(&machine.slots, basis, held, last);
            conclude(machine, out, basis, count_of(held), applied)
        }
        Err(_) => {
            machine.slots.push(Some(last))?;
            unprinted(enter_body(machine, at, function as usize - Basis::COUNT as usize))
        }
    }
}
