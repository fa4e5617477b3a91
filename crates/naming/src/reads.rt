// Nodes, the types of vals, and what a node does.
ghost use Rattle.std.specs.Prelude.{◌≡◌, ℕ, ◌+◌, max, min, slice_set};
ghost use Rattle.std.specs.List.{slice_get};
ghost use Rattle.layout.specs.Decoding.{node_found};
ghost use Rattle.program.specs.Compiling.{code};
ghost use Rattle.script_refusals.specs.Refusals.{refused_at};
ghost use Rattle.script_refusals.specs.declared.refusal.Refusal.TheVariants.{Mismatch};

use entries::put;
use globals::refused;
use layout::Node;
use program::{Code, Op};
use script_refusals::{Refusal, Refused};
use type_rows::ValueType;

// The node with a number; past the end, the unused one.
pub fn node_at(nodes: &[Node], i: usize) -> Node
    ensures { result ≡ node_found nodes.now i }
{
    nodes.get(i).copied().unwrap_or(Node::UNUSED)
}

// The number of the node after the last part of the one with a number.
pub fn after(nodes: &[Node], i: usize) -> usize
    ensures value { result ≡ max (node_found nodes.now i).past (min (i + 1) 18446744073709551615) }
{
    (node_at(nodes, i).past as usize).max(i.saturating_add(1))
}

// The type of the val with a number, if it stands before what is judged.
pub fn val_at(vals: &[ValueType], k: u16) -> Option<ValueType>
    ensures { result ≡ slice_get vals.now k }
{
    vals.get(k as usize).copied()
}

// Types or numbers of parts do not fit.
pub fn mismatch(place: u16) -> Refused
    ensures { result ≡ refused_at Mismatch place }
{
    refused(Refusal::Mismatch, place)
}

// What a node does is noted.
pub fn note(codes: &mut [Code], i: usize, node: Node, op: Op)
    ensures { codes.new ≡ slice_set codes.old i (code op node.place node.past) }
{
    let code = Code {
        op,
        place: node.place,
        past: node.past,
    };
    put(codes, i, code);
}
