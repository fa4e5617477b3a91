// The uses of local names, by a walk over the node list.
ghost use Rattle.std.specs.Prelude.{◌≡◌};
ghost use Rattle.first_uses.specs.Uses.{entered, used, name_at, is_entered, last_entered, first_use};

use layout::{Node, NodeForm, Word};
use names::part;

// The name that an expression enters.
fn entered(node: &Node) -> Option<Word>
    ensures { result ≡ entered node.now }
{
    match node.form {
        NodeForm::Name(size) => Some(Word {
            place: node.place,
            size,
        }),
        _ => None,
    }
}

// The name that an expression enters or dups.
fn used(node: &Node) -> Option<Word>
    ensures { result ≡ used node.now }
{
    match node.form {
        NodeForm::Dup(word) => Some(word),
        _ => entered(node),
    }
}

// The name that is used at a place.
fn name_at(nodes: &[Node], place: usize) -> Option<Word>
    ensures { result ≡ name_at nodes.now place }
{
    nodes
        .iter()
        .filter_map(used)
        .find(|word| word.place as usize == place)
}

// Whether an expression enters this name, somewhere before the place.
fn is_entered(text: &[u8], name: &[u8], place: usize, node: &Node) -> bool
    ensures { result ≡ is_entered text.now name.now place node.now }
{
    match entered(node) {
        Some(word) => (word.place as usize) < place && part(text, word) == name,
        None => false,
    }
}

// Where this name was entered last before a place.
fn last_entered(text: &[u8], nodes: &[Node], place: usize, name: &[u8]) -> Option<usize>
    ensures { result ≡ last_entered text.now nodes.now place name.now }
{
    let node = nodes
        .iter()
        .rev()
        .find(|node| is_entered(text, name, place, node))?;
    Some(node.place as usize)
}

// Where the name that is used at a place was entered last before it. If the check refuses the place with 10, that entering consumed the name:
// no other name in scope is spelt alike, and each entering before the place was allowed, so none follows the one that consumed it. Where
// several arms of a form consumed it, the last of them is told.
pub fn first_use(text: &[u8], nodes: &[Node], place: usize) -> Option<usize>
    ensures { result ≡ first_use text.now nodes.now place }
{
    let word = name_at(nodes, place)?;
    last_entered(text, nodes, place, part(text, word))
}
