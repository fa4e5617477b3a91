// The pass over a node list that numbers its symbols.
ghost use Rattle.std.specs.Prelude.{◌≡◌, ℕ, ◌+◌, ◌<◌, ◌≤◌, List, [], ◌∷◌, ◌++◌, length, take, drop};
ghost use Rattle.layout.specs.Literals.{Literal, place_of_first};
ghost use Rattle.symbols.specs.Indexing.{IsIndex, Holds};
ghost use Rattle.symbols.specs.Numbering.{literal_at, numbered};

use super::bytes::between;
use super::index::Index;
use super::literal::literal;
use layout::{NODES, Node, NodeForm};

// The place of the first literal with the same bytes as the one at a place, which is added if it is the first.
fn first_place(index: &mut Index, text: &[u8], place: u16) -> u16
    requires { IsIndex text.now index.old × (index.old.count < 4096) }
    ensures index { IsIndex text.now index.new }
    ensures few { index.new.count ≤ index.old.count + 1 }
    ensures first { (seen : List Literal) → Holds text.now index.old seen → result ≡ place_of_first (seen ++ literal_at text.now place ∷ []) (literal_at text.now place).bytes }
    ensures holds { (seen : List Literal) → Holds text.now index.old seen → Holds text.now index.new (seen ++ literal_at text.now place ∷ []) }
{
    let literal = literal(text, place);
    match index.find(text, between(text, literal)) {
        Some(first) => first.place,
        None => {
            index.add(text, literal);
            place
        }
    }
}

// Each symbol gets the place of the first literal with the same bytes.
fn number_each(text: &[u8], nodes: &mut [Node])
    requires { length nodes.old ≤ 4096 }
    ensures { nodes.new ≡ numbered text.now [] nodes.old }
{
    let mut index = Index::new();
    for node in nodes.iter_mut() {
        if let NodeForm::Symbol(place) = node.form {
            let first = first_place(&mut index, text, place);
            node.form = NodeForm::Symbol(first);
        }
    }
}

// Each symbol gets the place of the first literal with the same bytes. Only the first 4096 entries can be nodes.
pub fn number_symbols(text: &[u8], nodes: &mut [Node])
    ensures { nodes.new ≡ numbered text.now [] (take 4096 nodes.old) ++ drop 4096 nodes.old }
{
    let count = nodes.len().min(NODES);
    number_each(text, &mut nodes[..count]);
}
