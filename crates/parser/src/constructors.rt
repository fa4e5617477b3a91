// Constructors, read into the table of constructors and their field types into the table of types.
// Each table is a loan of its own and stays a parameter; `goes` stands on each reader, in one word, for the reader behind it.
ghost use Rattle.std.specs.Prelude.{◌≡◌, ℕ, ◌≤◌, length};
ghost use Rattle.grammar.specs.Forms.{two};
ghost use Rattle.grammar.specs.Reading.{constructor_of, read_constructor, read_constructors, read_constructor_list};
ghost use Rattle.grammar.specs.Sexps.{Sexp, Sexps, Atoms, nil, cons};
ghost use Rattle.grammar.specs.Streams.{stream};
ghost use Rattle.parser.specs.Listing.{GoesMark, OnMark, OnMarks, listed, alone, all};
ghost use Rattle.text.specs.Tokens.{Lexed, lexed_from};

use super::mark::Mark;
use super::types::type_list;
use forms::{Look, Source, Spot, closing_at, end_at, look_at, name_at, opening_at, over_limit};
use layout::{Constructor, DEPTH, TypeNode};
use text::Refused;

// The most constructors of a script.
const CONSTRUCTORS: usize = 256;

// How many parts the list that stands next has, where seven stands for more.
fn list_size(source: &Source, place: usize) -> u8
    ensures { (s : Sexp) (rest : Lexed) → lexed_from source.now.text.now place ≡ stream s rest → Atoms s → result ≡ listed s }
{
    match look_at(source.text, place) {
        Look::Open(_, inside) => source.survey(inside).parts as u8,
        Look::Atom(_, _, _) | Look::Close(_, _) | Look::End => 0,
    }
}

// The name and the field types of the constructor definition that begins at a place.
fn constructor_parts(
    source: &Source,
    place: u16,
    mark: Mark,
    datatype: u16,
    types: &mut [TypeNode; 512],
    table: &mut [Constructor; 256],
) -> Result<Mark, Refused>
    requires { mark.types ≤ 512 }
    ensures goes { GoesMark source.now.text.now mark result }
    ensures told { (entries : ℕ) (x ts : Sexp) → OnMarks alone datatype source.now.text.now mark types.old table.old (cons x (cons ts nil)) (constructor_of entries place (two x ts)) result types.new table.new }
{
    if mark.constructors >= CONSTRUCTORS {
        return Err(over_limit(place as usize));
    }
    let name = name_at(source.text, mark.place)?;
    let fields = list_size(source, name.after);
    let first = Spot {
        place: name.after,
        used: mark.types,
    };
    let end = type_list(source, first, types, DEPTH)?;
    let after = end_at(source.text, end.place)?;
    table[mark.constructors] = Constructor {
        place,
        name: name.word(),
        datatype,
        first: mark.types as u16,
        past: end.used as u16,
        fields,
    };
    Ok(Mark {
        place: after,
        types: end.used,
        constructors: mark.constructors + 1,
    })
}

// One constructor definition: a list of a name and a list of types.
fn constructor_at(
    source: &Source,
    mark: Mark,
    datatype: u16,
    types: &mut [TypeNode; 512],
    table: &mut [Constructor; 256],
) -> Result<Mark, Refused>
    requires { mark.types ≤ 512 }
    ensures goes { GoesMark source.now.text.now mark result }
    ensures told { (entries : ℕ) → OnMark alone datatype source.now.text.now mark types.old table.old (read_constructor entries) result types.new table.new }
{
    let opened = source.pair_at(mark.place)?;
    let first = Mark {
        place: opened.inside,
        ..mark
    };
    constructor_parts(source, opened.place as u16, first, datatype, types, table)
}

// Constructor definitions, up to the bracket that closes their list.
fn constructors_at(
    source: &Source,
    mark: Mark,
    datatype: u16,
    types: &mut [TypeNode; 512],
    table: &mut [Constructor; 256],
) -> Result<Mark, Refused>
    requires { (mark.types ≤ 512) × (mark.constructors ≤ 256) }
    ensures goes { GoesMark source.now.text.now mark result }
    ensures told { (entries : ℕ) (ss : Sexps) → OnMarks all datatype source.now.text.now mark types.old table.old ss (read_constructors entries ss) result types.new table.new }
{
    // Parts are followed: the mark is where the last one ended, and no index.
    let mut at = mark;
    'parts: loop {
        if let Some(after) = closing_at(source.text, at.place) {
            return Ok(Mark { place: after, ..at });
        }
        at = constructor_at(source, at, datatype, types, table)?;
    }
}

// The list of a datatype's constructors.
pub(crate) fn constructor_list(
    source: &Source,
    mark: Mark,
    datatype: u16,
    types: &mut [TypeNode; 512],
    table: &mut [Constructor; 256],
) -> Result<Mark, Refused>
    requires { (mark.types ≤ 512) × (mark.constructors ≤ 256) }
    ensures goes { GoesMark source.now.text.now mark result }
    ensures told { (entries : ℕ) → OnMark all datatype source.now.text.now mark types.old table.old (read_constructor_list entries) result types.new table.new }
{
    let opened = opening_at(source.text, mark.place)?;
    let first = Mark {
        place: opened.inside,
        ..mark
    };
    constructors_at(source, first, datatype, types, table)
}
