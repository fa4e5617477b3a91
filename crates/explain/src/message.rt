// A refusal as people read it: where it is, the line that it stands on with a mark under the place, and what to do.
ghost use Rattle.std.specs.Prelude.{◌≡◌, IfOk, string_bytes};
ghost use Rattle.explain.specs.Explained.{explained, pointed, explained_with_first};

use super::lines::{lead, line_around};
use super::position::{Position, position_of};
use super::rows::{mark_row, shown};
use std::alloc::{AllocError, Global};

// The refusal with this number at this place of the text, and the advice.
// It takes a number, since it stands below every crate that has refusals. The text, the place and the heap are what each call has.
pub fn explanation(
    heap: Global,
    text: &[u8],
    number: u8,
    place: usize,
    advice: &str,
) -> Result<String, AllocError>
    ensures { IfOk result (λ t. string_bytes t ≡ explained text.now number place advice.now) }
{
    let pointed = pointed(heap, text, place)?;
    format!(in heap; "refused {number} at {place}\n{pointed}{advice}\n")
}

// Where a place of the text is: its line and column, the line around it, and a mark under it.
pub fn pointed(heap: Global, text: &[u8], place: usize) -> Result<String, AllocError>
    ensures { IfOk result (λ t. string_bytes t ≡ pointed text.now place) }
{
    let Position { line, column } = position_of(text, place);
    let source = shown(heap, line_around(text, place))?;
    let mark = mark_row(heap, lead(text, place))?;
    format!(in heap; "line {line}, column {column}\n{source}\n{mark}\n")
}

// A refusal, and where the thing stands that was there first, as the first use of a name that is used again.
pub fn explanation_with_first(
    heap: Global,
    text: &[u8],
    number: u8,
    place: usize,
    advice: &str,
    first: usize,
) -> Result<String, AllocError>
    ensures { IfOk result (λ t. string_bytes t ≡ explained_with_first text.now number place advice.now first) }
{
    let explanation = explanation(heap, text, number, place, advice)?;
    let pointed = pointed(heap, text, first)?;
    format!(in heap; "{explanation}first at {first}\n{pointed}")
}
