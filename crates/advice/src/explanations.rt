// The whole explanation: the number and the place, the line with a mark, and the advice.
ghost use Rattle.std.specs.Prelude.{◌≡◌, IfOk, string_bytes};
ghost use Rattle.advice.specs.Explanations.{refusal_explained, second_use_explained, fault_explained};

use super::faults::fault_advice;
use super::lent::Lent;
use super::refusals::refusal_advice;
use explain::{explanation, explanation_with_first, pointed, shown};
use fault_names::name_of;
use rules::Fault;
use script_refusals::{Refusal, Refused};
use std::alloc::{AllocError, Global};

// Why the script with this text is refused.
pub fn explain_refusal(heap: Global, text: &[u8], refused: Refused) -> Result<String, AllocError>
    ensures { IfOk result (λ t. string_bytes t ≡ refusal_explained text.now refused) }
{
    let number = refused.refusal.number();
    let place = refused.place;
    explanation(heap, text, number, place, refusal_advice(refused.refusal))
}

// That a name is used again at a place, and where it was consumed first.
pub fn explain_second_use(
    heap: Global,
    text: &[u8],
    place: usize,
    first: usize,
) -> Result<String, AllocError>
    ensures { IfOk result (λ t. string_bytes t ≡ second_use_explained text.now place first) }
{
    let refusal = Refusal::Consumed;
    let advice = refusal_advice(refusal);
    explanation_with_first(heap, text, refusal.number(), place, advice, first)
}

// Why the run stopped.
pub fn explain_fault(
    heap: Global,
    text: &[u8],
    fault: Fault,
    lent: &Lent,
) -> Result<String, AllocError>
    ensures { IfOk result (λ t. string_bytes t ≡ fault_explained text.now fault lent.now) }
{
    let number = fault.kind.number();
    let place = fault.place;
    let name = shown(heap, name_of(text, fault.function))?;
    let pointed = pointed(heap, text, place as usize)?;
    let advice = fault_advice(heap, fault.kind, lent)?;
    format!(in heap; "fault {number} at {place} in {name}\n{pointed}{advice}\n")
}
