// The first branch that fits.
ghost use Rattle.std.specs.Prelude.{◌≡◌, ℕ};
ghost use Rattle.grammar.specs.Trees.{Branches};
ghost use Rattle.handing.specs.Choosing.{Chosen};
ghost use Rattle.machine.specs.Ready.{Forward};
ghost use Rattle.program.specs.Programs.{Program};
ghost use Rattle.program.specs.Scopes.{Scope};
ghost use Rattle.program.specs.Standing.{StandsBranches};

use super::choice::Choice;
use machine::code_at;
use program::{Compiled, Op};

// The branches stand from the first node up to the node `past`; none where none fits.
pub fn choose(script: &Compiled, first: u16, past: u16, constructor: u16) -> Option<Choice>
    ensures { (P : Program) (G : Scope) (bs : Branches) → Forward P script.now.code → StandsBranches P script.now.code G bs first past
        → Chosen P script.now.code G bs constructor result }
{
    // each branch names the node of the next, so the loop follows nodes and goes over no slice
    let mut node = first;
    while node < past {
        let code = code_at(script, node as usize);
        match code.op {
            Op::Any => return Some(Choice::Any(node)),
            Op::Branch(other, mask) => {
                if other == constructor {
                    return Some(Choice::Fields(node, mask));
                }
            }
            _ => return None,
        }
        if code.past <= node {
            return None;
        }
        node = code.past;
    }
    None
}
