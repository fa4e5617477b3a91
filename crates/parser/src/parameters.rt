// Parameter lists, read into the table of parameters.
ghost use Rattle.std.specs.Prelude.{ℕ, ◌+◌, ◌≤◌};
ghost use Rattle.grammar.specs.Reading.{read_parameters, read_parameter_list};
ghost use Rattle.parser.specs.Listing.{GoesNames, OnNames, OnNameList};

use forms::{Source, Spot, closing_at, name_at, opening_at, over_limit};
use layout::Word;
use text::Refused;

// The most parameters of a define.
const PARAMETERS: usize = 6;

// Names, at most six, up to the bracket that closes their list.
fn parameters(source: &Source, spot: Spot, words: &mut [Word; 1536]) -> Result<Spot, Refused>
    requires { spot.used + 6 ≤ 1536 }
    ensures goes { GoesNames source.now.text.now spot result }
    ensures told { (entries : ℕ) → OnNames source.now.text.now spot words.old (read_parameters entries 0) result words.new }
{
    // Tokens are followed, and no index: the spot is where the last one ended, with the number of the entry to write.
    let most = spot.used + PARAMETERS;
    let mut at = spot;
    'parts: loop {
        if let Some(after) = closing_at(source.text, at.place) {
            return Ok(Spot { place: after, ..at });
        }
        let name = name_at(source.text, at.place)?;
        if at.used >= most {
            return Err(over_limit(name.place));
        }
        words[at.used] = name.word();
        at = Spot {
            place: name.after,
            used: at.used + 1,
        };
    }
}

// A list of names in brackets.
pub(crate) fn parameter_list(
    source: &Source,
    spot: Spot,
    words: &mut [Word; 1536],
) -> Result<Spot, Refused>
    requires { spot.used + 6 ≤ 1536 }
    ensures goes { GoesNames source.now.text.now spot result }
    ensures told { (entries : ℕ) → OnNameList source.now.text.now spot words.old (read_parameter_list entries) result words.new }
{
    let opened = opening_at(source.text, spot.place)?;
    let first = Spot {
        place: opened.inside,
        ..spot
    };
    parameters(source, first, words)
}
