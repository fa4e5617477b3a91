// Expressions, their branches and bindings, read into the node list.
// The source, a spot and the node list stay parameters, and no reader holds them: each loan is its own, and a contract speaks of plain values.
// `goes` stands on each reader, in one word, for the reader behind it; the bound of a spot stays a clause too (see its type).
// The loops over expressions, bindings and branches stay three: a part's reader as a parameter is a call through a cycle, which gets no proof.
ghost use Rattle.std.specs.Prelude.{◌≡◌, ℕ, ◌+◌, ◌≤◌, List, length, slice_set, IfOk};
ghost use Rattle.forms.specs.Drafts.{encode};
ghost use Rattle.grammar.specs.Forms.{form_named, let_form_rule, case_form_rule, dup_form_rule, two};
ghost use Rattle.forms.specs.Parts.{under, encode_binding, encode_branch, OnPart, OnList, OnEach, read_row, reading_at};
ghost use Rattle.forms.specs.Progress.{Goes, Told};
ghost use Rattle.grammar.specs.Reading.{Tally, expr_atom, atom_expr, read_expr, binding_of, read_binding, branch_of, read_branch};
ghost use Rattle.forms.specs.Rows.{read_each, encode_each};
ghost use Rattle.grammar.specs.Sexps.{Sexp, Sexps, nil, cons};
ghost use Rattle.text.specs.Grammar.{Spelt};
ghost use Rattle.text.specs.Tokens.{lexed_from};

use super::atoms::{claim, leaf, wrong};
use super::form::{FormKind, form_of};
use super::names::name_at;
use super::patterns::pattern_at;
use super::sight::{Look, behind, closing_at, end_at, look_at, opening_at};
use super::source::Source;
use super::spot::Spot;
use entries::put;
use layout::{Node, NodeForm};
use text::{Refused, TokenKind};

// The node of a part, by its number: the part ends at a spot.
fn close(nodes: &mut [Node], used: usize, form: NodeForm, place: u16, end: Spot)
    requires { end.used ≤ 4096 }
    ensures { nodes.new ≡ slice_set nodes.old used (record { form = form; place = place; past = end.used }) }
{
    put(
        nodes,
        used,
        Node {
            form,
            place,
            past: end.used as u16,
        },
    );
}

// A token that is an expression by itself, at a place, with the place behind it.
fn single(
    kind: TokenKind,
    place: u16,
    after: usize,
    used: usize,
    nodes: &mut [Node],
) -> Result<Spot, Refused>
    requires { place ≤ after }
    ensures few { IfOk result (λ end. (end.place ≡ after) × (end.used ≤ 4096)) }
    ensures told { (text w : List ℕ) (n : Tally) → Spelt kind w → after ≡ place + length w → n.nodes ≡ used → Told text (lexed_from text after) (record { place = place; used = used }) nodes.old (encode used) (expr_atom (length nodes.old) place (atom_expr (length nodes.old) kind place w) n) result nodes.new }
{
    let form = leaf(kind, place, after - place as usize).ok_or(wrong(place as usize))?;
    let past = claim(used, nodes.len(), place)?;
    let end = Spot {
        place: after,
        used: past,
    };
    close(nodes, used, form, place, end);
    Ok(end)
}

// The expression at a spot, with at most so many brackets nested in it.
#[cycle(expression)]
pub fn expression(
    source: &Source,
    spot: Spot,
    nodes: &mut [Node],
    depth: usize,
) -> Result<Spot, Refused>
    ensures goes { Goes source.now.text.now spot result }
    ensures told { OnPart source.now.text.now spot nodes.old encode (read_expr (length nodes.old) depth) result nodes.new }
{
    match look_at(source.text, spot.place) {
        Look::Atom(kind, at, after) => single(kind, at as u16, after, spot.used, nodes),
        Look::Open(at, inside) => {
            if depth == 0 {
                return Err(wrong(at));
            }
            let first = Spot {
                place: inside,
                ..spot
            };
            list(source, at as u16, first, nodes, depth - 1)
        }
        Look::Close(at, _) => Err(wrong(at)),
        Look::End => Err(wrong(spot.place)),
    }
}

// The list that begins at a place, by its form: from behind its bracket on.
#[cycle(expression)]
fn list(
    source: &Source,
    place: u16,
    spot: Spot,
    nodes: &mut [Node],
    depth: usize,
) -> Result<Spot, Refused>
    ensures goes { Goes source.now.text.now spot result }
    ensures told { OnEach source.now.text.now spot nodes.old encode (λ ss. reading_at (length nodes.old) depth place (form_named ss)) result nodes.new }
{
    let inside = Spot {
        place: behind(source.text, spot.place),
        ..spot
    };
    // A closed enum, each case its own rule.
    match form_of(source.survey(spot.place)).ok_or(wrong(place as usize))? {
        FormKind::If => row(source, place, NodeForm::If, inside, nodes, depth),
        FormKind::Begin => row(source, place, NodeForm::Begin, inside, nodes, depth),
        FormKind::Let => let_form(source, place, inside, nodes, depth),
        FormKind::Case => case_form(source, place, inside, nodes, depth),
        FormKind::Dup => dup_form(source, place, inside, nodes),
        FormKind::Apply => row(source, place, NodeForm::Apply, spot, nodes, depth),
    }
}

// A node before the expressions of its list.
#[cycle(expression)]
fn row(
    source: &Source,
    place: u16,
    form: NodeForm,
    spot: Spot,
    nodes: &mut [Node],
    depth: usize,
) -> Result<Spot, Refused>
    ensures goes { Goes source.now.text.now spot result }
    ensures told { OnEach source.now.text.now spot nodes.old (under form place (encode_each encode)) (read_row (length nodes.old) place (read_expr (length nodes.old) depth)) result nodes.new }
{
    let first = claim(spot.used, nodes.len(), place)?;
    let end = expressions(
        source,
        Spot {
            used: first,
            ..spot
        },
        nodes,
        depth,
    )?;
    close(nodes, spot.used, form, place, end);
    Ok(end)
}

// Expressions, up to the bracket that closes their list.
#[cycle(expression)]
fn expressions(
    source: &Source,
    spot: Spot,
    nodes: &mut [Node],
    depth: usize,
) -> Result<Spot, Refused>
    requires { spot.used ≤ 4096 }
    ensures goes { Goes source.now.text.now spot result }
    ensures told { OnEach source.now.text.now spot nodes.old (encode_each encode) (read_each (read_expr (length nodes.old) depth)) result nodes.new }
{
    // Parts are followed: the spot is where the last one ended, and no index.
    let mut at = spot;
    'parts: loop {
        if let Some(after) = closing_at(source.text, at.place) {
            return Ok(Spot { place: after, ..at });
        }
        at = expression(source, at, nodes, depth)?;
    }
}

// A let, from its bindings on.
#[cycle(expression)]
fn let_form(
    source: &Source,
    place: u16,
    spot: Spot,
    nodes: &mut [Node],
    depth: usize,
) -> Result<Spot, Refused>
    ensures goes { Goes source.now.text.now spot result }
    ensures told { (bs e : Sexp) → OnList source.now.text.now spot nodes.old encode (cons bs (cons e nil)) (reading_at (length nodes.old) depth place (let_form_rule bs e)) result nodes.new }
{
    let first = claim(spot.used, nodes.len(), place)?;
    let opened = opening_at(source.text, spot.place)?;
    let inside = Spot {
        place: opened.inside,
        used: first,
    };
    let middle = bindings(source, inside, nodes, depth)?;
    let end = expressions(source, middle, nodes, depth)?;
    close(nodes, spot.used, NodeForm::Let, place, end);
    Ok(end)
}

// The bindings of a let, up to the bracket that closes their list.
#[cycle(expression)]
fn bindings(source: &Source, spot: Spot, nodes: &mut [Node], depth: usize) -> Result<Spot, Refused>
    requires { spot.used ≤ 4096 }
    ensures goes { Goes source.now.text.now spot result }
    ensures told { OnEach source.now.text.now spot nodes.old (encode_each encode_binding) (read_each (read_binding (length nodes.old) (read_expr (length nodes.old) depth))) result nodes.new }
{
    // Parts are followed: the spot is where the last one ended, and no index.
    let mut at = spot;
    'parts: loop {
        if let Some(after) = closing_at(source.text, at.place) {
            return Ok(Spot { place: after, ..at });
        }
        at = binding(source, at, nodes, depth)?;
    }
}

// One binding: a list of a name and an expression.
#[cycle(expression)]
fn binding(source: &Source, spot: Spot, nodes: &mut [Node], depth: usize) -> Result<Spot, Refused>
    ensures goes { Goes source.now.text.now spot result }
    ensures told { OnPart source.now.text.now spot nodes.old encode_binding (read_binding (length nodes.old) (read_expr (length nodes.old) depth)) result nodes.new }
{
    let opened = source.pair_at(spot.place)?;
    let inside = Spot {
        place: opened.inside,
        ..spot
    };
    bound(source, opened.place as u16, inside, nodes, depth)
}

// The name and the expression of the binding that begins at a place.
#[cycle(expression)]
fn bound(
    source: &Source,
    place: u16,
    spot: Spot,
    nodes: &mut [Node],
    depth: usize,
) -> Result<Spot, Refused>
    ensures goes { Goes source.now.text.now spot result }
    ensures told { (x e : Sexp) → OnList source.now.text.now spot nodes.old encode_binding (cons x (cons e nil)) (binding_of (length nodes.old) (read_expr (length nodes.old) depth) place (two x e)) result nodes.new }
{
    let first = claim(spot.used, nodes.len(), place)?;
    let name = name_at(source.text, spot.place)?;
    let inside = Spot {
        place: name.after,
        used: first,
    };
    let end = expressions(source, inside, nodes, depth)?;
    close(nodes, spot.used, NodeForm::Binding(name.word()), place, end);
    Ok(end)
}

// A case, from its subject on.
#[cycle(expression)]
fn case_form(
    source: &Source,
    place: u16,
    spot: Spot,
    nodes: &mut [Node],
    depth: usize,
) -> Result<Spot, Refused>
    ensures goes { Goes source.now.text.now spot result }
    ensures told { (e b : Sexp) (bs : Sexps) → OnList source.now.text.now spot nodes.old encode (cons e (cons b bs)) (reading_at (length nodes.old) depth place (case_form_rule e b bs)) result nodes.new }
{
    let first = claim(spot.used, nodes.len(), place)?;
    let middle = expression(
        source,
        Spot {
            used: first,
            ..spot
        },
        nodes,
        depth,
    )?;
    let end = branches(source, middle, nodes, depth)?;
    close(nodes, spot.used, NodeForm::Case, place, end);
    Ok(end)
}

// The branches of a case, up to the bracket that closes it.
#[cycle(expression)]
fn branches(source: &Source, spot: Spot, nodes: &mut [Node], depth: usize) -> Result<Spot, Refused>
    requires { spot.used ≤ 4096 }
    ensures goes { Goes source.now.text.now spot result }
    ensures told { OnEach source.now.text.now spot nodes.old (encode_each encode_branch) (read_each (read_branch (length nodes.old) (read_expr (length nodes.old) depth))) result nodes.new }
{
    // Parts are followed: the spot is where the last one ended, and no index.
    let mut at = spot;
    'parts: loop {
        if let Some(after) = closing_at(source.text, at.place) {
            return Ok(Spot { place: after, ..at });
        }
        at = branch(source, at, nodes, depth)?;
    }
}

// One branch: a list of a pattern and an expression.
#[cycle(expression)]
fn branch(source: &Source, spot: Spot, nodes: &mut [Node], depth: usize) -> Result<Spot, Refused>
    ensures goes { Goes source.now.text.now spot result }
    ensures told { OnPart source.now.text.now spot nodes.old encode_branch (read_branch (length nodes.old) (read_expr (length nodes.old) depth)) result nodes.new }
{
    let opened = source.pair_at(spot.place)?;
    let inside = Spot {
        place: opened.inside,
        ..spot
    };
    arm(source, opened.place as u16, inside, nodes, depth)
}

// The pattern and the expression of the branch that begins at a place.
#[cycle(expression)]
fn arm(
    source: &Source,
    place: u16,
    spot: Spot,
    nodes: &mut [Node],
    depth: usize,
) -> Result<Spot, Refused>
    ensures goes { Goes source.now.text.now spot result }
    ensures told { (x e : Sexp) → OnList source.now.text.now spot nodes.old encode_branch (cons x (cons e nil)) (branch_of (length nodes.old) (read_expr (length nodes.old) depth) place (two x e)) result nodes.new }
{
    let first = claim(spot.used, nodes.len(), place)?;
    let pattern = pattern_at(source.text, spot.place)?;
    let inside = Spot {
        place: pattern.after,
        used: first,
    };
    let end = expressions(source, inside, nodes, depth)?;
    close(
        nodes,
        spot.used,
        NodeForm::Branch(pattern.place as u16),
        place,
        end,
    );
    Ok(end)
}

// A dup, from its name on.
fn dup_form(source: &Source, place: u16, spot: Spot, nodes: &mut [Node]) -> Result<Spot, Refused>
    ensures goes { Goes source.now.text.now spot result }
    ensures told { (depth : ℕ) (x : Sexp) → OnList source.now.text.now spot nodes.old encode (cons x nil) (reading_at (length nodes.old) depth place (dup_form_rule x)) result nodes.new }
{
    let past = claim(spot.used, nodes.len(), place)?;
    let name = name_at(source.text, spot.place)?;
    let after = end_at(source.text, name.after)?;
    let end = Spot {
        place: after,
        used: past,
    };
    close(nodes, spot.used, NodeForm::Dup(name.word()), place, end);
    Ok(end)
}
