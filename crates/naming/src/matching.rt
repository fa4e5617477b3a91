// The pattern of a branch.
// `grown` is a clause of each row: what a call leaves as it was is no fact of one value.
ghost use Rattle.std.specs.Prelude.{◌≡◌, ◌≤◌, ◌&&◌, List, length, ◌==◌};
ghost use Rattle.naming.specs.Binding.{OnHead, OnConstructor, OnPattern};
ghost use Rattle.naming.specs.Judges.{desk, Grown};
ghost use Rattle.script_refusals.specs.Refusals.{refused_at};
ghost use Rattle.script_refusals.specs.declared.refusal.Refusal.TheVariants.{Mismatch};
ghost use Rattle.grammar.specs.Trees.{PatternPart};
ghost use Rattle.patterns.specs.Parts.{PartsAt};

use super::binding::bind_parts;
use super::reads::{node_at, note, val_at};
use super::world::World;
use globals::{Global, Variant, refused};
use layout::Word;
use names::part;
use patterns::{Head, head_at, next_part};
use program::{Code, Op};
use scopes::{Local, Scope, find};
use script_refusals::{Refusal, Refused};

// How many parts stand from a place on.
fn count_parts(text: &[u8], place: usize) -> usize
    ensures { (xs : List PatternPart) → length text.now ≤ 65535 → PartsAt text.now place xs → result ≡ length xs }
{
    let mut at = place;
    let mut count: usize = 0;
    // Tokens are followed, and counted.
    'parts: while let Some(part) = next_part(text, at) {
        at = part.after;
        count = count.saturating_add(1);
    }
    count
}

// A pattern that does not fit, at itself.
// Beside `mismatch` of a node, whose place has 16 bits: one function for both widths would be generic, and longer than the two.
fn unlike(place: usize) -> Refused
    ensures { result ≡ refused_at Mismatch place }
{
    Refused {
        refusal: Refusal::Mismatch,
        place,
    }
}

// The constructor that a pattern's head names, in a pattern at a place.
// Here one meaning fits, and where a name is dupped none does: in one function of both that would be a case more.
fn variant_of(world: &World<'_>, place: usize, word: Word, name: &[u8]) -> Result<u16, Refused>
    ensures { OnHead world.now place word.place name.now result }
{
    let unknown = refused(Refusal::Unknown, word.place);
    let global = world.globals.named(world.text, name).ok_or(unknown)?;
    match global {
        Global::Function(_) => Err(unlike(place)),
        Global::Constructor(k) => Ok(k),
        Global::Val(k) => {
            val_at(world.vals, k).ok_or(unknown)?;
            Err(unlike(place))
        }
    }
}

// Whether a constructor is one of a datatype, and the parts that stand from a place on are as many as its fields.
fn fits(text: &[u8], inside: usize, variant: Variant, datatype: u16) -> bool
    ensures { (xs : List PatternPart) → length text.now ≤ 65535 → PartsAt text.now inside xs → result ≡ (variant.datatype == datatype && length xs == variant.fields) }
{
    variant.datatype == datatype && count_parts(text, inside) == variant.fields as usize
}

// A constructor's pattern: its head, then its parts.
fn constructor(
    world: &World<'_>,
    i: usize,
    head: Head,
    datatype: u16,
    height: usize,
    scope: &mut Scope,
    locals: &mut [Local],
    codes: &mut [Code],
) -> Result<(), Refused>
    ensures grown { Grown (desk scope.old locals.old) (desk scope.new locals.new) }
    ensures matched { OnConstructor world.now i head datatype height (desk scope.old locals.old) codes.old result (desk scope.new locals.new) codes.new }
{
    let Head {
        place,
        name: word,
        inside,
    } = head;
    let name = part(world.text, word);
    if find(world.text, locals, scope.depth, name).is_some() {
        return Err(unlike(place));
    }
    let k = variant_of(world, place, word, name)?;
    let variant = world.globals.variant(k);
    if !fits(world.text, inside, variant, datatype) {
        return Err(unlike(place));
    }
    let bits = bind_parts(world, inside, variant.first, height, scope, locals)?;
    note(codes, i, node_at(world.nodes, i), Op::Branch(k, bits));
    Ok(())
}

// The pattern at a place, of the branch at a node, for values of a datatype.
pub fn pattern(
    world: &World<'_>,
    i: usize,
    place: u16,
    datatype: u16,
    height: usize,
    scope: &mut Scope,
    locals: &mut [Local],
    codes: &mut [Code],
) -> Result<(), Refused>
    ensures grown { Grown (desk scope.old locals.old) (desk scope.new locals.new) }
    ensures matched { OnPattern world.now i place datatype height (desk scope.old locals.old) codes.old result (desk scope.new locals.new) codes.new }
{
    match head_at(world.text, place as usize) {
        None => {
            note(codes, i, node_at(world.nodes, i), Op::Any);
            Ok(())
        }
        Some(head) => constructor(world, i, head, datatype, height, scope, locals, codes),
    }
}
