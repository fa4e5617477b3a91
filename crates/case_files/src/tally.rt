// How many cases there were, and how they ended.
ghost use Rattle.std.specs.Prelude.{◌≡◌, ◌+◌, cond, min, true, false, Ok, Err};

use super::answer::Answer;
use std::fmt;

#[derive(Clone, Copy, Debug, Default, PartialEq, Eq)]
pub(crate) struct Tally {
    pub accepted: u32,
    pub refused: u32,
    pub wrong: u32,
}

impl Tally {
    // A case that expects this answer, and whether that is what came.
    pub(crate) fn count(&mut self, expected: Answer, right: bool)
        ensures accepted { elim expected [ Ok _ ↦ self.new.accepted ≡ min (self.old.accepted + 1) 4294967295 | Err _ ↦ self.new.accepted ≡ self.old.accepted ] }
        ensures refused { elim expected [ Ok _ ↦ self.new.refused ≡ self.old.refused | Err _ ↦ self.new.refused ≡ min (self.old.refused + 1) 4294967295 ] }
        ensures wrong { elim right [ true ↦ self.new.wrong ≡ self.old.wrong | false ↦ self.new.wrong ≡ min (self.old.wrong + 1) 4294967295 ] }
    {
        match expected {
            Ok(_) => self.accepted = self.accepted.saturating_add(1),
            Err(_) => self.refused = self.refused.saturating_add(1),
        }
        if !right {
            self.count_fault();
        }
    }

    // A fault of the file.
    pub(crate) fn count_fault(&mut self)
        ensures wrong { self.new.wrong ≡ min (self.old.wrong + 1) 4294967295 }
        ensures accepted { self.new.accepted ≡ self.old.accepted }
        ensures refused { self.new.refused ≡ self.old.refused }
    {
        self.wrong = self.wrong.saturating_add(1);
    }
}

impl fmt::Display for Tally {
    fn fmt<W: fmt::Write>(&self, f: &mut fmt::Formatter<W>) -> fmt::Result {
        write!(
            f,
            "{} accepted, {} refused, {} wrong",
            self.accepted, self.refused, self.wrong
        )
    }
}
