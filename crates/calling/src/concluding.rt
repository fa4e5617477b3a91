// An application of a function of the basis is concluded: its arguments leave, and it no longer waits.
// `steady` and `spares` are clauses of each row: what a call leaves as it was is no fact of one value.
ghost use Rattle.std.specs.Prelude.{◌≡◌, ℕ, List, []};
ghost use Rattle.basis.specs.Printing.{printed};
ghost use Rattle.calling.specs.Applying.{Says, SaysApplied};
ghost use Rattle.cells.specs.Meaning.{Cells};
ghost use Rattle.data.specs.Standing.{Plain};
ghost use Rattle.data.specs.Trees.{Tree, int, unit};
ghost use Rattle.machine.specs.Mirrors.{Mirrors, Moved, Printed, Under, Steady, Spares};
ghost use Rattle.program.specs.Programs.{Program};
ghost use Rattle.rules.specs.States.{Environment, Account, State, st, leaves};
ghost use Rattle.rules.specs.States.{Frame as Waits, finished as has_finished};
ghost use Rattle.rules.specs.Steps.{Sizes, goes, first_byte, later_bytes, symbol_body};
ghost use Rattle.rules.specs.Steps.{answer as answers, finish as finishes};

use super::quotes::body_of;
use basis::{Applied, Basis, Print, write_print};
use cells::values::Value;
use machine::{Control, Halt, Machine, unprinted};
use rules::FaultKind;

// Its value is finished.
#[inline(always)]
fn give(machine: &mut Machine<'_, '_>, count: usize, value: Value) -> Result<(), FaultKind>
    ensures steady { Steady machine.old machine.new }
    ensures law { (P : Program) (Z : Sizes) (m₀ m : Cells) (s : State) (K : List Waits) (env : Environment) (a : Account) (t : Tree)
        → Under P Z m₀ count K env a machine.old m → Plain value t
        → Moved P Z m₀ s (goes [] (st K env (has_finished t) a)) result machine.new m }
{
    machine.uncover(count);
    machine.finish(value)
}

// Its value is the next byte of the input, or -1 at the end.
#[inline(never)]
fn take_byte(machine: &mut Machine<'_, '_>, count: usize) -> Result<(), FaultKind>
    ensures steady { Steady machine.old machine.new }
    ensures law { (P : Program) (Z : Sizes) (m₀ m : Cells) (s : State) (K : List Waits) (env : Environment) (a : Account)
        → Under P Z m₀ count K env a machine.old m
        → Moved P Z m₀ s (finishes P Z (int (first_byte a.input)) K env (leaves (later_bytes a.input) a)) result machine.new m }
{
    let Some((byte, rest)) = machine.input.split_first() else {
        return give(machine, count, Value::Int(-1));
    };
    machine.input = rest;
    give(machine, count, Value::Int(*byte as i32))
}

// It prints, and its value is unit.
#[inline(never)]
fn put(
    machine: &mut Machine<'_, '_>,
    out: &mut [u8],
    count: usize,
    print: Print,
) -> Result<usize, Halt>
    ensures steady { Steady machine.old machine.new }
    ensures spares { Spares result out.old out.new }
    ensures law { (P : Program) (Z : Sizes) (m₀ m : Cells) (s : State) (K : List Waits) (env : Environment) (a : Account)
        → Mirrors P Z m₀ s machine.old m → Under P Z m₀ count K env a machine.old m → Says P machine.old.text.now print
        → Printed P Z m₀ s out.old (goes (printed print (symbol_body P.literals print)) (st K env (has_finished unit) a)) result machine.new m out.new }
{
    let body = body_of(machine.text, print);
    let size = write_print(print, body, out).ok_or(Halt::OutputFull)?;
    machine.uncover(count);
    machine.control = Control::Finished(Value::Unit);
    Ok(size)
}

// By what the call comes to; so many arguments lie on the slots.
// Many steps end here, and few print or read: with those apart a step keeps what it works on in registers.
#[inline(always)]
pub fn conclude(
    machine: &mut Machine<'_, '_>,
    out: &mut [u8],
    basis: Basis,
    count: usize,
    applied: Applied,
) -> Result<usize, Halt>
    ensures steady { Steady machine.old machine.new }
    ensures spares { Spares result out.old out.new }
    ensures law { (P : Program) (Z : Sizes) (m₀ m : Cells) (s : State) (K : List Waits) (env : Environment) (a : Account)
        → Mirrors P Z m₀ s machine.old m → Under P Z m₀ count K env a machine.old m → SaysApplied P machine.old.text.now applied
        → Printed P Z m₀ s out.old (answers P Z basis K env a applied) result machine.new m out.new }
{
    // A closed enum, whose cases each have a rule of their own.
    match applied {
        Applied::Int(number) => unprinted(give(machine, count, Value::Int(number))),
        Applied::Bool(truth) => unprinted(give(machine, count, Value::Bool(truth))),
        Applied::Prints(print) => put(machine, out, count, print),
        Applied::Reads => unprinted(take_byte(machine, count)),
        Applied::Faults(fault) => Err(Halt::Failed(FaultKind::from(fault), Some(basis))),
        Applied::Mismatch => Err(Halt::from(FaultKind::Stuck)),
    }
}
