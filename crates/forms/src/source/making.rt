// A source is made of a text by the token layer's pass, and tells what decides the form of a list, and where a list of two parts begins.
ghost use Rattle.std.specs.Prelude.{◌≡◌};
ghost use Rattle.forms.specs.Pairs.{GoesPair, Paired};
ghost use Rattle.forms.specs.Sources.{Makes};
ghost use Rattle.forms.specs.Surveys.{parts_of, surveyed};
ghost use Rattle.grammar.specs.Sexps.{Sexp, Atoms};
ghost use Rattle.grammar.specs.Streams.{stream};
ghost use Rattle.text.specs.Tokens.{Lexed, lexed_from};

use super::super::atoms::wrong;
use super::super::counting::count_lists;
use super::super::part_count::PartCount;
use super::super::sight::{Opened, opening_at};
use super::super::survey::{Survey, count_parts, head_at};
use super::Source;
use text::{Refused, scan};

impl<'t> Source<'t> {
    // The text as a source, or the first refusal of the token layer.
    pub fn new(text: &'t [u8]) -> Result<Source<'t>, Refused>
        ensures { Makes text.now result }
    {
        scan(text)?;
        let mut counts = [PartCount::UNKNOWN; 65536];
        count_lists(text, &mut counts);
        Ok(Source { text, counts })
    }

    // The number of parts of the list whose parts begin at a place.
    fn parts_at(&self, place: usize) -> usize
        ensures { result ≡ parts_of (lexed_from self.now.text.now place) }
    {
        // Two arms: as two closures of a `map_or_else` they would be no plainer.
        let count = self
            .counts
            .get(place)
            .copied()
            .unwrap_or(PartCount::UNKNOWN);
        match count.parts() {
            Some(parts) => parts as usize,
            None => count_parts(self.text, place),
        }
    }

    // What decides the form of the list whose parts begin at a place.
    pub fn survey(&self, place: usize) -> Survey
        ensures { result ≡ surveyed (lexed_from self.now.text.now place) }
    {
        Survey {
            parts: self.parts_at(place),
            head: head_at(self.text, place),
        }
    }

    // The opening bracket of the list of two parts that stands next, or the refusal of what stands in its place.
    pub fn pair_at(&self, place: usize) -> Result<Opened, Refused>
        ensures goes { GoesPair self.now.text.now place result }
        ensures told { (s : Sexp) (rest : Lexed) → lexed_from self.now.text.now place ≡ stream s rest → Atoms s → Paired self.now.text.now rest s result }
    {
        let opened = opening_at(self.text, place)?;
        if self.survey(opened.inside).parts != 2 {
            return Err(wrong(opened.place));
        }
        Ok(opened)
    }
}
