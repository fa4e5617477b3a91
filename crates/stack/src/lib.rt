// A stack over a slice that its user lends: it never allocates, so how much it holds is the lender's choice.
// One stack for every element type: contracts speak of the list that it holds, `items` with the bottom first
// and `tops` with the top first.
#![tactic(auto)]

ghost use Rattle.std.specs.Prelude.{◌≡◌, ℕ, ◌+◌, ◌-◌, ◌*◌, ◌/◌, ◌%◌, ◌^◌, ◌<◌, ◌≤◌, List, [], ◌∷◌, ◌++◌, reverse, length, take, drop, Some, None, Ok, Err, slice_set};
ghost use Rattle.std.specs.List.{slice_get};
ghost use Rattle.stack.specs.Items.{items, tops, room_of, slice_of, loan_of};

mod full;

pub use full::Full;
use std::mem;

// The entries are the first `len` of the lent slice, or all of it where `len` is past its end: so every
// value of this type has a meaning, and a struct may hold a stack by value.
#[derive(Drop)]
pub struct Stack<'a, T> {
    lent: &'a mut [T],
    len: usize,
}

impl<'a, T: Copy> Stack<'a, T> {
    // An empty stack with room for as many entries as `lent` has.
    pub fn new(lent: &'a mut [T]) -> Stack<'a, T>
        ensures items { items result ≡ [] }
        ensures tops { tops result ≡ [] }
        ensures room { room_of result ≡ length lent.old }
        ensures slice { slice_of result ≡ lent.old }
        ensures loan { loan_of result ≡ lent.entry.ghost_name }
    {
        Stack { lent, len: 0 }
    }

    // A stack whose entries are the first `len` of `lent`, or all of them where it has fewer. Whoever may keep
    // only a number, with the slice beside it, makes such a stack for as long as one access takes.
    pub fn with_len(lent: &'a mut [T], len: usize) -> Stack<'a, T>
        ensures items { items result ≡ take len lent.old }
        ensures tops { tops result ≡ reverse (take len lent.old) }
        ensures room { room_of result ≡ length lent.old }
        ensures slice { slice_of result ≡ lent.old }
        ensures loan { loan_of result ≡ lent.entry.ghost_name }
    {
        Stack { lent, len }
    }

    // How many entries it holds.
    pub fn len(&self) -> usize
        ensures items { result ≡ length (items self.now) }
        ensures tops { result ≡ length (tops self.now) }
        ensures within { result ≤ room_of self.now }
    {
        self.len.min(self.lent.len())
    }

    // How many entries there is place for in all.
    pub fn room(&self) -> usize
        ensures { result ≡ room_of self.now }
    {
        self.lent.len()
    }

    // (`room`, `slice` and `loan` are clauses of each call that changes the stack: what a call leaves as it was is no fact of one value.)
    // `x` goes on top, unless all room is used: then nothing changes.
    pub fn push(&mut self, x: T) -> Result<(), Full>
        ensures fits { elim result [ Ok _ ↦ length (tops self.old) < room_of self.old | Err _ ↦ length (tops self.old) ≡ room_of self.old ] }
        ensures items { elim result [ Ok _ ↦ items self.new ≡ items self.old ++ x ∷ [] | Err _ ↦ items self.new ≡ items self.old ] }
        ensures tops { elim result [ Ok _ ↦ tops self.new ≡ x ∷ tops self.old | Err _ ↦ tops self.new ≡ tops self.old ] }
        ensures room { room_of self.new ≡ room_of self.old }
        ensures slice { elim result [ Ok _ ↦ slice_of self.new ≡ slice_set (slice_of self.old) (length (items self.old)) x | Err _ ↦ slice_of self.new ≡ slice_of self.old ] }
        ensures loan { loan_of self.new ≡ loan_of self.old }
    {
        if self.len >= self.lent.len() {
            return Err(Full);
        }
        self.lent[self.len] = x;
        self.len += 1;
        Ok(())
    }

    // The top leaves.
    pub fn pop(&mut self) -> Option<T>
        ensures items { elim result [ Some x ↦ items self.old ≡ items self.new ++ x ∷ [] | None ↦ (items self.old ≡ []) × (items self.new ≡ []) ] }
        ensures tops { elim result [ Some x ↦ tops self.old ≡ x ∷ tops self.new | None ↦ (tops self.old ≡ []) × (tops self.new ≡ []) ] }
        ensures room { room_of self.new ≡ room_of self.old }
        ensures slice { slice_of self.new ≡ slice_of self.old }
        ensures loan { loan_of self.new ≡ loan_of self.old }
    {
        let i = self.len().checked_sub(1)?;
        self.len = i;
        Some(self.lent[i])
    }

    // The entry that lies `depth` below the top, where there is one.
    pub fn at_depth(&self, depth: usize) -> Option<T>
        ensures { result ≡ slice_get (tops self.now) depth }
    {
        let n = self.len();
        if depth >= n {
            return None;
        }
        let place = n - 1 - depth;
        Some(self.lent[place])
    }

    // The newest entry, where there is one.
    pub fn top(&self) -> Option<T>
        ensures { result ≡ slice_get (tops self.now) 0 }
    {
        self.at_depth(0)
    }

    // `x` takes the place of the entry that lies `depth` below the top. The answer is what stood there: where
    // nothing did, nothing changes.
    pub fn replace_at_depth(&mut self, depth: usize, x: T) -> Option<T>
        ensures old { result ≡ slice_get (tops self.old) depth }
        ensures items { elim result [ Some _ ↦ items self.new ≡ slice_set (items self.old) (length (items self.old) - 1 - depth) x | None ↦ items self.new ≡ items self.old ] }
        ensures tops { tops self.new ≡ slice_set (tops self.old) depth x }
        ensures room { room_of self.new ≡ room_of self.old }
        ensures slice { elim result [ Some _ ↦ slice_of self.new ≡ slice_set (slice_of self.old) (length (items self.old) - 1 - depth) x | None ↦ slice_of self.new ≡ slice_of self.old ] }
        ensures loan { loan_of self.new ≡ loan_of self.old }
    {
        let n = self.len();
        if depth >= n {
            return None;
        }
        let i = n - 1 - depth;
        Some(mem::replace(&mut self.lent[i], x))
    }

    // `x` takes the place of the newest entry. The answer is what stood there: where nothing did, nothing changes.
    pub fn replace_top(&mut self, x: T) -> Option<T>
        ensures old { result ≡ slice_get (tops self.old) 0 }
        ensures items { elim result [ Some _ ↦ items self.new ≡ slice_set (items self.old) (length (items self.old) - 1) x | None ↦ items self.new ≡ items self.old ] }
        ensures tops { tops self.new ≡ slice_set (tops self.old) 0 x }
        ensures room { room_of self.new ≡ room_of self.old }
        ensures slice { elim result [ Some _ ↦ slice_of self.new ≡ slice_set (slice_of self.old) (length (items self.old) - 1) x | None ↦ slice_of self.new ≡ slice_of self.old ] }
        ensures loan { loan_of self.new ≡ loan_of self.old }
    {
        self.replace_at_depth(0, x)
    }

    // The oldest `len` entries stay; all of them where it holds fewer.
    pub fn truncate(&mut self, len: usize)
        ensures items { items self.new ≡ take len (items self.old) }
        ensures tops { tops self.new ≡ drop (length (items self.old) - len) (tops self.old) }
        ensures room { room_of self.new ≡ room_of self.old }
        ensures slice { slice_of self.new ≡ slice_of self.old }
        ensures loan { loan_of self.new ≡ loan_of self.old }
    {
        self.len = self.len.min(len);
    }

    // The newest `count` entries leave; all of them where it holds fewer.
    pub fn cut(&mut self, count: usize)
        ensures items { items self.new ≡ take (length (items self.old) - count) (items self.old) }
        ensures tops { tops self.new ≡ drop count (tops self.old) }
        ensures room { room_of self.new ≡ room_of self.old }
        ensures slice { slice_of self.new ≡ slice_of self.old }
        ensures loan { loan_of self.new ≡ loan_of self.old }
    {
        let n = self.len();
        self.truncate(n.saturating_sub(count));
    }

    // The loan ends, and the lent slice comes back.
    pub fn into_slice(self) -> &'a mut [T]
        ensures slice { result.now ≡ slice_of self.entry }
        ensures loan { result.ghost_name ≡ loan_of self.entry }
    {
        let Stack { lent, len: _ } = self;
        lent
    }
}
