// The head of an application.
ghost use Rattle.bodies.specs.Heads.{OnHead};
ghost use Rattle.naming.specs.Judges.{desk};

use globals::Global;
use layout::{NodeForm, Word};
use names::part;
use naming::{World, node_at};
use scopes::{Local, Scope, find};

// The constructor that the node at an application's head names, if it does.
pub(crate) fn constructor_at(
    world: &World<'_>,
    i: usize,
    scope: &Scope,
    locals: &[Local],
) -> Option<u16>
    ensures { OnHead world.now i (desk scope.now locals.now) result }
{
    let node = node_at(world.nodes, i);
    let NodeForm::Name(size) = node.form else {
        return None;
    };
    let word = Word {
        place: node.place,
        size,
    };
    let name = part(world.text, word);
    if find(world.text, locals, scope.depth, name).is_some() {
        return None;
    }
    match world.globals.named(world.text, name) {
        Some(Global::Constructor(k)) => Some(k),
        Some(Global::Function(_)) => None,
        Some(Global::Val(_)) => None,
        None => None,
    }
}
