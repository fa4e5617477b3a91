// Cases of a run.
ghost use Rattle.std.specs.Prelude.{◌≡◌, ◌≢◌, ◌<◌, ◌≤◌, ◌∷◌, [], ◌++◌, length, codes, All, OnOk, IfOk, IfErr};
ghost use Rattle.cases.specs.Taking.{Takes};
ghost use Rattle.cases.specs.Within.{IsWithin};
ghost use Rattle.cases.specs.Written.{numbered, sizes_then, fault_then, end_then, HasName, advance_then, AdvancesHaveNames, advances_then, close_then, rest_of_run};

use super::case::{Advance, Close, End, Fault, RunCase, Sizes};
use super::front::Front;
use super::{Malformed, Unread};
use std::alloc::{AllocError, Global};

// The two numbers behind a word.
#[derive(Clone, Copy)]
struct Counts {
    // of an advance, at most or as they were taken
    steps: u32,
    // of bytes, the room for them or those that are written
    size: u32,
}

// How an advance ended, with its counts.
#[derive(Clone, Copy)]
struct Ending<'c> {
    end: End<'c>,
    counts: Counts,
}

fn keep<'c>(advances: &mut Vec<Advance<'c>>, advance: Advance<'c>) -> Result<(), AllocError>
    ensures { OnOk result (advances.new.items ≡ advances.old.items ++ advance.entry ∷ []) }
{
    advances.push(advance)?;
    Ok(())
}

impl<'c> Front<'c> {
    fn sizes(&mut self) -> Result<Sizes, Malformed>
        ensures { Takes result self.old.left.now self.new.left.now sizes_then }
    {
        let cells = self.numbered(b"sizes ")?;
        let first = self.numbered(b" ")?;
        let second = self.numbered(b" ")?;
        let allowance = self.numbered(b" ")?;
        self.word(b"\n")?;
        Ok(Sizes {
            cells,
            first,
            second,
            allowance,
        })
    }

    fn counts(&mut self, word: &[u8]) -> Result<Counts, Malformed>
        ensures { Takes result self.old.left.now self.new.left.now (λ c rest. numbered word.now c.steps (numbered (codes " ") c.size rest)) }
    {
        let steps = self.numbered(word)?;
        let size = self.numbered(b" ")?;
        Ok(Counts { steps, size })
    }

    // An end that is told by its word alone.
    fn ended(&mut self, word: &[u8], end: End<'c>) -> Result<Ending<'c>, Malformed>
        ensures takes { Takes result self.old.left.now self.new.left.now (λ e rest. numbered word.now e.counts.steps (numbered (codes " ") e.counts.size (10 ∷ rest))) }
        ensures end { IfOk result (λ e. e.end ≡ end.entry) }
    {
        let counts = self.counts(word)?;
        self.word(b"\n")?;
        Ok(Ending { end, counts })
    }

    fn fault(&mut self) -> Result<Fault<'c>, Malformed>
        ensures takes { Takes result self.old.left.now self.new.left.now fault_then }
        ensures name { IfOk result (λ f. All (λ b. b ≢ 10) f.name.now) }
    {
        let number = self.numbered(b" ")?;
        let place = self.numbered(b" ")?;
        self.word(b" ")?;
        let name = self.line()?;
        Ok(Fault {
            number,
            place,
            name,
        })
    }

    fn faulted(&mut self) -> Result<Ending<'c>, Malformed>
        ensures takes { Takes result self.old.left.now self.new.left.now (λ e rest. end_then e.end e.counts.steps e.counts.size rest) }
        ensures name { IfOk result (λ e. HasName e.end) }
    {
        let counts = self.counts(b"fault ")?;
        let fault = self.fault()?;
        Ok(Ending {
            end: End::Faulted(fault),
            counts,
        })
    }

    fn ending(&mut self) -> Result<Ending<'c>, Malformed>
        ensures takes { Takes result self.old.left.now self.new.left.now (λ e rest. end_then e.end e.counts.steps e.counts.size rest) }
        ensures name { IfOk result (λ e. HasName e.end) }
    {
        match self.left {
            [b'e', ..] => self.ended(b"ended ", End::Ended),
            [b'p', ..] => self.ended(b"paused ", End::Paused),
            [b'f', b'u', ..] => self.ended(b"full ", End::Full),
            _ => self.faulted(),
        }
    }

    fn advance(&mut self) -> Result<Advance<'c>, Malformed>
        ensures takes { Takes result self.old.left.now self.new.left.now advance_then }
        ensures name { IfOk result (λ a. HasName a.end) }
        ensures shorter { IfOk result (λ _. length self.new.left.now < length self.old.left.now) }
    {
        let asked = self.counts(b"advance ")?;
        self.word(b"\n")?;
        let told = self.ending()?;
        let bytes = self.block(told.counts.size)?;
        Ok(Advance {
            count: asked.steps,
            room: asked.size,
            end: told.end,
            steps: told.counts.steps,
            bytes,
        })
    }

    fn advances(&mut self, heap: Global) -> Result<Vec<Advance<'c>>, Unread>
        ensures front { IfOk result (λ v. self.old.left.now ≡ advances_then v.items self.new.left.now) }
        ensures names { IfOk result (λ v. AdvancesHaveNames v.items) }
        ensures shorter { IfOk result (λ _. length self.new.left.now ≤ length self.old.left.now) }
        ensures within { IfErr result (λ e. IsWithin e self.old.left.now) }
    {
        let mut advances = Vec::new(heap);
        while self.left.starts_with(b"advance ") {
            keep(&mut advances, self.advance()?)?;
        }
        Ok(advances)
    }

    fn close(&mut self) -> Result<Close, Malformed>
        ensures { Takes result self.old.left.now self.new.left.now close_then }
    {
        let steps = self.numbered(b"close ")?;
        let taken = self.numbered(b" ")?;
        let given_back = self.numbered(b" ")?;
        self.word(b"\n")?;
        Ok(Close {
            steps,
            taken,
            given_back,
        })
    }

    // What follows the text: the input, the sizes, the advances and the close.
    pub(crate) fn run_case(&mut self, heap: Global, text: &'c [u8]) -> Result<RunCase<'c>, Unread>
        ensures front { IfOk result (λ c. self.old.left.now ≡ rest_of_run c self.new.left.now) }
        ensures text { IfOk result (λ c. c.text.now ≡ text.now) }
        ensures names { IfOk result (λ c. AdvancesHaveNames c.advances.items) }
        ensures within { IfErr result (λ e. IsWithin e self.old.left.now) }
    {
        let input = self.told_block(b"input ")?;
        let sizes = self.sizes()?;
        let advances = self.advances(heap)?;
        let close = self.close()?;
        Ok(RunCase {
            text,
            input,
            sizes,
            advances,
            close,
        })
    }
}
