// Which local a name is, and a name more.
ghost use Rattle.std.specs.Prelude.{◌≡◌, ℕ, ◌+◌, ◌<◌, ◌≤◌, length, slice_index_or};
ghost use Rattle.scopes.specs.Locals.{no_local, FindsLocal, Pushed};

use super::local::Local;
use super::scope::Scope;
use names::part;
use stack::{Full, Stack};

// The local with a number.
pub fn local_at(locals: &[Local], k: usize) -> Local
    ensures { result ≡ slice_index_or locals.now k no_local }
{
    locals.get(k).copied().unwrap_or(Local::NONE)
}

// The number of the newest local with a name.
pub fn find(text: &[u8], locals: &[Local], depth: usize, name: &[u8]) -> Option<usize>
    ensures { FindsLocal text.now locals.now name.now depth result }
{
    // By number, which is the answer; of what a range gives backwards under `find` the library has no fact.
    'names: for k in (0..depth).rev() {
        if name == part(text, local_at(locals, k).name) {
            return Some(k);
        }
    }
    None
}

// A name more, if there is room.
pub fn push(scope: &mut Scope, locals: &mut [Local], local: Local) -> Result<(), Full>
    ensures { Pushed scope.old locals.old local result scope.new locals.new }
{
    let mut stack = Stack::with_len(locals, scope.depth);
    stack.push(local)?;
    let depth = stack.len();
    scope.depth = depth;
    scope.clear(depth.saturating_sub(1));
    Ok(())
}
