// How a let goes on.
ghost use Rattle.std.specs.Prelude.{◌≡◌, ℕ, List};
ghost use Rattle.grammar.specs.Trees.{Expr, Bindings};
ghost use Rattle.machine.specs.Going.{LetGoes};
ghost use Rattle.machine.specs.Holding.{names};
ghost use Rattle.machine.specs.Waiting.{PlacedAt};
ghost use Rattle.program.specs.Compiling.{let_scope};
ghost use Rattle.program.specs.Programs.{Program};
ghost use Rattle.program.specs.Standing.{StandsAt, StandsBindings};
ghost use Rattle.rules.specs.States.{Environment};

use super::reads::{after, code_at};
use super::{Frame, Onward};
use program::{Compiled, Op};

// With the next binding, or with its body. The let stands at the first node, its next part at the second, and it binds so many names.
pub fn bind_next(script: &Compiled, at: u16, next: u16, count: u16) -> Onward
    ensures { (P : Program) (env : Environment) (p k : ℕ) (bs : Bindings) (e : Expr) → PlacedAt P script.now.code at p
        → StandsBindings P script.now.code (names env) bs next k → StandsAt P script.now.code (let_scope bs (names env)) e k
        → LetGoes P script.now.code p bs e count env result }
{
    let code = code_at(script, next as usize);
    match code.op {
        Op::Binding => Onward {
            frame: Frame::Binding(at, code.past, count),
            node: after(next),
        },
        _ => Onward {
            frame: Frame::Leaving(at, count),
            node: next,
        },
    }
}
