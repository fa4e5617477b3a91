// Type expressions, read into the table of types.
// The spot, the table and the depth stay parameters: each changes by itself from one reader to the next.
ghost use Rattle.std.specs.Prelude.{◌≡◌, ℕ, ◌+◌, ◌<◌, ◌≤◌, cond, List, length, IfOk};
ghost use Rattle.grammar.specs.Forms.{two};
ghost use Rattle.grammar.specs.Reading.{Tally, type_atom, atom_type, read_type, read_types, read_type_list, read_arrow};
ghost use Rattle.grammar.specs.Sexps.{Sexp, nil, cons};
ghost use Rattle.layout.specs.TypeEncoding.{encode_type, encode_types};
ghost use Rattle.parser.specs.TypeParts.{type_form, claimed_type, arrow_head, Seventh, GoesType, GoesTypes, ToldType, OnType, OnTypeList, OnTypes};
ghost use Rattle.text.specs.Grammar.{Spelt};
ghost use Rattle.text.specs.Scans.{refused_at};
ghost use Rattle.text.specs.Tokens.{lexed_from};
ghost use Rattle.text.specs.declared.refusal.Refusal.TheVariants.{Limit, Form};

use forms::{
    Look, Source, Spot, Survey, behind, closing_at, end_at, look_at, opening_at, over_limit, wrong,
};
use layout::{TypeForm, TypeNode};
use text::{Keyword, Refused, TokenKind};

// The most type expressions of a script. It is the limit of this table alone; globals' table has the same size.
const TYPES: usize = 512;

// The most types in a list of parameters or fields.
const LISTED: usize = 6;

// One type expression more, at a place: how many are used then.
fn claim_type(used: usize, place: u16) -> Result<usize, Refused>
    ensures { result ≡ claimed_type used place }
{
    if used < TYPES {
        return Ok(used + 1);
    }
    Err(over_limit(place as usize))
}

// A token that is a type by itself. A name has at most 63 bytes, so its size fits.
fn type_leaf(kind: TokenKind, size: usize) -> Option<TypeForm>
    ensures { result ≡ type_form kind size }
{
    // A conversion, case by case: no arm is a step.
    match kind {
        TokenKind::Keyword(Keyword::Int) => Some(TypeForm::Int),
        TokenKind::Keyword(Keyword::Bool) => Some(TypeForm::Bool),
        TokenKind::Keyword(Keyword::Sym) => Some(TypeForm::Sym),
        TokenKind::Keyword(Keyword::Unit) => Some(TypeForm::Unit),
        TokenKind::Name => Some(TypeForm::Datatype(size.min(255) as u8)),
        _ => None,
    }
}

// Whether a list is a function type, as far as its head and its number of parts go.
fn is_arrow(seen: Survey) -> bool
    ensures { result ≡ arrow_head seen.head seen.parts }
{
    seen == Survey {
        parts: 3,
        head: Some(Keyword::Arrow),
    }
}

// The refusal of one part too many, which is a type by its own shape or is none.
fn too_many(is_type: bool, place: usize) -> Refused
    ensures { result ≡ refused_at (cond is_type Limit Form) place }
{
    if is_type {
        over_limit(place)
    } else {
        wrong(place)
    }
}

// The refusal of a part behind six others: too many if it is a type by its own shape, and otherwise no type.
fn seventh(source: &Source, place: usize) -> Refused
    ensures { Seventh source.now.text.now place result }
{
    match look_at(source.text, place) {
        Look::Atom(kind, at, _) => too_many(type_leaf(kind, 0).is_some(), at),
        Look::Open(at, inside) => too_many(is_arrow(source.survey(inside)), at),
        Look::Close(at, _) => wrong(at),
        Look::End => wrong(place),
    }
}

// A token that is a type by itself, at a place, with the place behind it.
fn single_type(
    kind: TokenKind,
    place: u16,
    after: usize,
    used: usize,
    types: &mut [TypeNode; 512],
) -> Result<Spot, Refused>
    requires { place ≤ after }
    ensures few { IfOk result (λ end. (end.place ≡ after) × (used < end.used) × (end.used ≤ 512)) }
    ensures told { (text w : List ℕ) (n : Tally) → Spelt kind w → after ≡ place + length w → n.types ≡ used → ToldType text (lexed_from text after) (record { place = place; used = used }) types.old (encode_type used) (type_atom place (atom_type kind place w) n) result types.new }
{
    let form = type_leaf(kind, after - place as usize).ok_or(wrong(place as usize))?;
    let past = claim_type(used, place)?;
    types[used] = TypeNode {
        form,
        place,
        past: past as u16,
    };
    Ok(Spot {
        place: after,
        used: past,
    })
}

// The type at a spot, with at most so many brackets nested in it.
#[cycle(type_at)]
pub(crate) fn type_at(
    source: &Source,
    spot: Spot,
    types: &mut [TypeNode; 512],
    depth: usize,
) -> Result<Spot, Refused>
    ensures goes { GoesType source.now.text.now spot result }
    ensures told { OnType source.now.text.now spot types.old encode_type (read_type depth) result types.new }
{
    match look_at(source.text, spot.place) {
        Look::Atom(kind, at, after) => single_type(kind, at as u16, after, spot.used, types),
        Look::Open(at, inside) => {
            if depth == 0 {
                return Err(wrong(at));
            }
            if !is_arrow(source.survey(inside)) {
                return Err(wrong(at));
            }
            let first = Spot {
                place: behind(source.text, inside),
                ..spot
            };
            function_type(source, at as u16, first, types, depth - 1)
        }
        Look::Close(at, _) => Err(wrong(at)),
        Look::End => Err(wrong(spot.place)),
    }
}

// The function type that begins at a place, from the list of its parameter types on.
#[cycle(type_at)]
fn function_type(
    source: &Source,
    place: u16,
    spot: Spot,
    types: &mut [TypeNode; 512],
    depth: usize,
) -> Result<Spot, Refused>
    ensures goes { GoesType source.now.text.now spot result }
    ensures told { (ps t : Sexp) → OnTypeList source.now.text.now spot types.old encode_type (cons ps (cons t nil)) (read_arrow (read_type depth) place (two ps t)) result types.new }
{
    let first = claim_type(spot.used, place)?;
    let middle = type_list(
        source,
        Spot {
            used: first,
            ..spot
        },
        types,
        depth,
    )?;
    let end = type_at(source, middle, types, depth)?;
    let after = end_at(source.text, end.place)?;
    types[spot.used] = TypeNode {
        form: TypeForm::Function,
        place,
        past: end.used as u16,
    };
    Ok(Spot {
        place: after,
        ..end
    })
}

// A list of types in brackets: the parameter types of a function type, or the field types of a constructor.
#[cycle(type_at)]
pub(crate) fn type_list(
    source: &Source,
    spot: Spot,
    types: &mut [TypeNode; 512],
    depth: usize,
) -> Result<Spot, Refused>
    requires { spot.used ≤ 512 }
    ensures goes { GoesTypes source.now.text.now spot result }
    ensures told { OnType source.now.text.now spot types.old encode_types (read_type_list (read_type depth)) result types.new }
{
    let opened = opening_at(source.text, spot.place)?;
    let first = Spot {
        place: opened.inside,
        ..spot
    };
    listed_types(source, first, types, depth)
}

// Types, at most six, up to the bracket that closes their list.
#[cycle(type_at)]
fn listed_types(
    source: &Source,
    spot: Spot,
    types: &mut [TypeNode; 512],
    depth: usize,
) -> Result<Spot, Refused>
    requires { spot.used ≤ 512 }
    ensures goes { GoesTypes source.now.text.now spot result }
    ensures told { OnTypes source.now.text.now spot types.old encode_types (read_types (read_type depth) 0) result types.new }
{
    let mut at = spot;
    let mut count = 0;
    'parts: loop {
        if let Some(after) = closing_at(source.text, at.place) {
            return Ok(Spot { place: after, ..at });
        }
        // The count is a limit and no index: what is read are tokens.
        if count >= LISTED {
            return Err(seventh(source, at.place));
        }
        at = type_at(source, at, types, depth)?;
        count += 1;
    }
}
