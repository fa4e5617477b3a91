// What a form binds leaves the scope when its guard is dropped: at the end, or where a refusal leaves early.
ghost use Rattle.std.specs.Prelude.{◌≡◌, ◌-◌};

use super::scope::Scope;

pub struct Guard<'a> {
    pub scope: &'a mut Scope,
    depth: usize,
}

impl<'a> Guard<'a> {
    pub fn new(scope: &'a mut Scope) -> Guard<'a>
        ensures depth { result.depth ≡ scope.old.depth }
        ensures scope { result.scope.now ≡ scope.old }
        ensures loan { result.scope.ghost_name ≡ scope.entry.ghost_name }
    {
        let depth = scope.depth;
        Guard { scope, depth }
    }

    // How many names were bound since.
    pub fn bound(&self) -> usize
        ensures { result ≡ self.now.scope.now.depth - self.now.depth }
    {
        self.scope.depth.saturating_sub(self.depth)
    }
}

impl Drop for Guard<'_> {
    fn drop(self)
        ensures depth { self.exit.0.now.depth ≡ self.entry.depth }
        ensures marks { self.exit.0.now.marks ≡ self.entry.scope.now.marks }
    {
        self.scope.depth = self.depth;
        let Guard { scope: _, depth: _ } = self;
    }
}
