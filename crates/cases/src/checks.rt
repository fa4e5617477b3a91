// Cases of the check.
ghost use Rattle.std.specs.Prelude.{◌≡◌, ◌∷◌, codes, IfOk};
ghost use Rattle.cases.specs.Taking.{Takes};
ghost use Rattle.cases.specs.Written.{numbered, verdict_then};

use super::Malformed;
use super::case::{CheckCase, Refused};
use super::front::Front;

impl<'c> Front<'c> {
    fn verdict(&mut self) -> Result<Result<(), Refused>, Malformed>
        ensures { Takes result self.old.left.now self.new.left.now verdict_then }
    {
        if self.word(b"accepted\n").is_ok() {
            return Ok(Ok(()));
        }
        let number = self.numbered(b"refused ")?;
        let place = self.numbered(b" ")?;
        self.word(b"\n")?;
        Ok(Err(Refused { number, place }))
    }

    // What follows the text: the node list's length and the verdict.
    pub(crate) fn check_case(&mut self, text: &'c [u8]) -> Result<CheckCase<'c>, Malformed>
        ensures takes { Takes result self.old.left.now self.new.left.now (λ c rest. numbered (codes "nodes ") c.nodes (10 ∷ verdict_then c.verdict rest)) }
        ensures text { IfOk result (λ c. c.text.now ≡ text.now) }
    {
        let nodes = self.numbered(b"nodes ")?;
        self.word(b"\n")?;
        let verdict = self.verdict()?;
        Ok(CheckCase {
            text,
            nodes,
            verdict,
        })
    }
}
