// What a case expects of a text, as far as a listing hangs on it.
ghost use Rattle.std.specs.Prelude.{◌≡◌, ◌↔◌, IsTrue, false};

use super::answer::Answer;

#[derive(Clone, Copy, Debug, PartialEq, Eq)]
pub struct Expected {
    pub answer: Answer,
    // whether the case has a listing
    pub listed: bool,
}

impl Expected {
    // Whether nobody looks at the listing of a text with this answer: the case has none, and the answer is the one that it expects.
    pub fn needs_no_listing(self, found: Answer) -> bool
        ensures { IsTrue result ↔ (self.listed ≡ false) × (found ≡ self.answer) }
    {
        !self.listed && found == self.answer
    }
}
