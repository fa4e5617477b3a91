// The refusal of a check as people read it.
ghost use Rattle.std.specs.Prelude.{◌≡◌, IfOk, string_bytes};
ghost use Rattle.first_uses.specs.Explained.{first_of, check_explained};

use super::uses::first_use;
use advice::{explain_refusal, explain_second_use};
use layout::Node;
use script_refusals::{Refusal, Refused};
use std::alloc::{AllocError, Global};

// Where a name was used first, if the refusal is for its second use.
fn first_of(text: &[u8], nodes: &[Node], refused: Refused) -> Option<usize>
    ensures { result ≡ first_of text.now nodes.now refused }
{
    match refused.refusal {
        Refusal::Consumed => first_use(text, nodes, refused.place),
        _ => None,
    }
}

// Why the check refuses the script with this text and these nodes; for a name that is used a second time, also where it was used first.
pub fn explain_check(
    heap: Global,
    text: &[u8],
    nodes: &[Node],
    refused: Refused,
) -> Result<String, AllocError>
    ensures { IfOk result (λ t. string_bytes t ≡ check_explained text.now nodes.now refused) }
{
    match first_of(text, nodes, refused) {
        Some(first) => explain_second_use(heap, text, refused.place, first),
        None => explain_refusal(heap, text, refused),
    }
}
