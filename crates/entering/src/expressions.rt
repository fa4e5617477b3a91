// Entering an expression, by what its node does.
// `steady` is a clause of each row: what a call leaves as it was is no fact of one value.
ghost use Rattle.std.specs.Prelude.{◌≡◌, ℕ, List};
ghost use Rattle.cells.specs.Meaning.{Cells};
ghost use Rattle.grammar.specs.Trees.{Expr};
ghost use Rattle.machine.specs.Mirrors.{Mirrors, Moved, Steady};
ghost use Rattle.program.specs.Programs.{Program};
ghost use Rattle.rules.specs.States.{Environment, Account, st};
ghost use Rattle.rules.specs.States.{Frame as Waits, enter as enters};
ghost use Rattle.rules.specs.Steps.{Sizes, enter_expr};

use super::builds::enter_build;
use super::lookups::{enter_dup, enter_local, enter_val};
use cells::store::CellStore;
use cells::values::Value;
use machine::{Control, Frame, Machine, after, bind_next, code_at};
use program::Op;
use rules::FaultKind;

// The expression at this node is entered.
pub fn enter<S: CellStore>(
    machine: &mut Machine<'_, '_>,
    store: &mut S,
    at: u16,
) -> Result<(), FaultKind>
    ensures steady { Steady machine.old machine.new }
    ensures law { (P : Program) (Z : Sizes) (m₀ : Cells) (K : List Waits) (env : Environment) (a : Account) (e : Expr)
        → Mirrors P Z m₀ (st K env (enters e) a) machine.old (S.CellStore.cells store.old) → machine.old.control ≡ Control.Enter at
        → Moved P Z m₀ (st K env (enters e) a) (enter_expr P Z K env a e) result machine.new (S.CellStore.cells store.new) }
{
    let code = code_at(machine.script, at as usize);
    // By what the node does: these are all cases, and code is a table of values, so a match and no closures.
    match code.op {
        Op::Integer(number) => machine.finish(Value::Int(number)),
        Op::Symbol(number) => machine.finish(Value::Sym(number as u32)),
        Op::Boolean(truth) => machine.finish(Value::Bool(truth)),
        Op::Unit => machine.finish(Value::Unit),
        Op::Local(depth) => enter_local(machine, depth),
        Op::Dup(depth) => enter_dup(machine, store, depth),
        Op::Function(number) => machine.finish(Value::Function(number as u32)),
        Op::Val(number) => enter_val(machine, at, number),
        Op::If => machine.wait(Frame::Test(at), after(at)),
        Op::Case => machine.wait(Frame::Tested(at), after(at)),
        Op::Call => machine.wait(Frame::Head(at), after(at)),
        Op::Begin => {
            let first = after(at);
            let next = code_at(machine.script, first as usize).past;
            machine.wait(Frame::Part(at, next), first)
        }
        Op::Let(count) => {
            let on = bind_next(machine.script, at, after(at), count);
            machine.wait(on.frame, on.node)
        }
        Op::Build(constructor, count) => enter_build(machine, store, at, constructor, count),
        _ => Err(FaultKind::Stuck),
    }
}
