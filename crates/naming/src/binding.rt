// Names that are bound.
// `grown` is a clause of each row: what a call leaves as it was is no fact of one value.
ghost use Rattle.std.specs.Prelude.{◌≡◌, slice_index_or};
ghost use Rattle.naming.specs.Binding.{OnName, OnParts, OnParameters, IsFresh};
ghost use Rattle.naming.specs.Judges.{desk, Grown};
ghost use Rattle.layout.specs.Tabling.{unused_word};

use super::world::World;
use globals::refused;
use layout::{Tables, Word};
use names::part;
use patterns::next_part;
use scopes::{Local, Scope, find, push};
use script_refusals::{Refusal, Refused};
use type_rows::ValueType;

// Whether no local in scope has a name, and nothing in the whole script.
fn is_fresh(world: &World<'_>, locals: &[Local], depth: usize, name: &[u8]) -> bool
    ensures { IsFresh world.now locals.now depth name.now result }
{
    find(world.text, locals, depth, name).is_none()
        && world.globals.named(world.text, name).is_none()
}

// A name is bound.
pub fn bind(
    world: &World<'_>,
    word: Word,
    kind: ValueType,
    height: usize,
    scope: &mut Scope,
    locals: &mut [Local],
) -> Result<(), Refused>
    ensures grown { Grown (desk scope.old locals.old) (desk scope.new locals.new) }
    ensures bound { OnName world.now word kind height (desk scope.old locals.old) result (desk scope.new locals.new) }
{
    let depth = scope.depth;
    let local = Local {
        name: word,
        kind,
        height,
    };
    push(scope, locals, local).map_err(|_| refused(Refusal::Limit, word.place))?;
    if is_fresh(world, locals, depth, part(world.text, word)) {
        return Ok(());
    }
    Err(refused(Refusal::Repeated, word.place))
}

// The names of a pattern whose parts stand at a place, with the types from a row up to another; the fields that are bound, as bits.
pub fn bind_parts(
    world: &World<'_>,
    place: usize,
    row: u16,
    height: usize,
    scope: &mut Scope,
    locals: &mut [Local],
) -> Result<u8, Refused>
    ensures grown { Grown (desk scope.old locals.old) (desk scope.new locals.new) }
    ensures bound { OnParts world.now place row height (desk scope.old locals.old) result (desk scope.new locals.new) }
{
    let Some(part) = next_part(world.text, place) else {
        return Ok(0);
    };
    let rows = world.globals.rows();
    let next = rows.row(row as usize).past;
    match part.name {
        Some(word) => {
            bind(world, word, rows.kind(row), height, scope, locals)?;
            let bits = bind_parts(
                world,
                part.after,
                next,
                height.saturating_add(1),
                scope,
                locals,
            )?;
            Ok(bits.saturating_mul(2).saturating_add(1))
        }
        None => {
            let bits = bind_parts(world, part.after, next, height, scope, locals)?;
            Ok(bits.saturating_mul(2))
        }
    }
}

// A word of a table; past the end, the unused one.
fn word_at(words: &[Word], k: usize) -> Word
    ensures { result ≡ slice_index_or words.now k unused_word }
{
    words.get(k).copied().unwrap_or(Word::UNUSED)
}

// The parameters of a define, from an entry of the table of parameters up to another, with the types from a row on.
pub fn bind_parameters(
    world: &World<'_>,
    tables: &Tables,
    first: u16,
    past: u16,
    row: u16,
    scope: &mut Scope,
    locals: &mut [Local],
) -> Result<(), Refused>
    ensures { OnParameters world.now tables.now first past row (desk scope.old locals.old) result (desk scope.new locals.new) }
{
    let rows = world.globals.rows();
    let mut row = row;
    // By number: that the table has so many entries is not known here, and past its end a word of no bytes is read.
    for k in first..past {
        let word = word_at(&tables.parameters, k as usize);
        bind(world, word, rows.kind(row), scope.depth, scope, locals)?;
        row = rows.row(row as usize).past;
    }
    Ok(())
}
