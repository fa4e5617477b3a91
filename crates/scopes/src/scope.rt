// How many names are in scope, and which of them are consumed.
ghost use Rattle.std.specs.Prelude.{◌≡◌, true, false, slice_set, slice_index_or};

use entries::put;

// The marks stand beside the locals and not in them: each arm of a form begins with a copy of them, and the arms' marks are joined.
#[derive(Drop)]
pub struct Scope {
    pub depth: usize,
    // the oldest first
    pub marks: [bool; 64],
}

impl Scope {
    // No name is in scope.
    pub fn new() -> Scope
        ensures { result.depth ≡ 0 }
    {
        Scope {
            depth: 0,
            marks: [false; 64],
        }
    }

    // Whether the name with a number is consumed.
    pub fn is_marked(&self, k: usize) -> bool
        ensures { result ≡ slice_index_or self.now.marks k false }
    {
        self.marks.get(k).copied().unwrap_or(false)
    }

    // A name is consumed.
    pub fn mark(&mut self, k: usize)
        ensures depth { self.new.depth ≡ self.old.depth }
        ensures marks { self.new.marks ≡ slice_set self.old.marks k true }
    {
        put(&mut self.marks, k, true);
    }

    // A name is not consumed.
    pub fn clear(&mut self, k: usize)
        ensures depth { self.new.depth ≡ self.old.depth }
        ensures marks { self.new.marks ≡ slice_set self.old.marks k false }
    {
        put(&mut self.marks, k, false);
    }
}
