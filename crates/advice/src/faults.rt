// A sentence for each fault of a run. Where something ran out it says how much of it there was.
ghost use Rattle.std.specs.Prelude.{◌≡◌, IfOk, string_bytes};
ghost use Rattle.advice.specs.Sentences.{fault_sentence, cells_sentence, entries_sentence, steps_sentence};

use super::lent::Lent;
use rules::FaultKind;
use std::alloc::{AllocError, Global};

const NO_BRANCH: &str =
    "No branch fits this value: add a branch for its constructor, or a last branch with _ for all others.";

const ZERO_DIVISOR: &str =
    "This divides by 0: test the divisor first, and say what the rule means there.";

const BAD_SHIFT: &str = "This shifts by an amount outside 0 to 31: keep the amount within these.";

const STUCK: &str =
    "The store is not the one that the run was opened with, or somebody changed it: hand the same store to every call, and leave its cells alone in between.";

// What stands before and behind the numbers.
const CELLS: &str = "Too few cells are free for this step, of ";

const HOLD_LESS: &str = " that were free at opening: hold less data at a time, or lend more cells.";

const STACKS: &str = "A stack has too few entries for this step, of ";

const WAITING: &str = " for waiting expressions and ";

const NEST_LESS: &str = " for names and arguments: let calls nest less deep, or lend more entries.";

const STEPS: &str = "The run has taken all of its ";

const COME_TO_AN_END: &str = " steps: look for a call that comes to no end, or allow more steps.";

fn too_few_cells(heap: Global, cells: usize) -> Result<String, AllocError>
    ensures { IfOk result (λ t. string_bytes t ≡ cells_sentence cells) }
{
    format!(in heap; "{CELLS}{cells}{HOLD_LESS}")
}

fn stack_full(heap: Global, first: usize, second: usize) -> Result<String, AllocError>
    ensures { IfOk result (λ t. string_bytes t ≡ entries_sentence first second) }
{
    format!(in heap; "{STACKS}{first}{WAITING}{second}{NEST_LESS}")
}

fn allowance_spent(heap: Global, allowance: u32) -> Result<String, AllocError>
    ensures { IfOk result (λ t. string_bytes t ≡ steps_sentence allowance) }
{
    format!(in heap; "{STEPS}{allowance}{COME_TO_AN_END}")
}

pub fn fault_advice(heap: Global, kind: FaultKind, lent: &Lent) -> Result<String, AllocError>
    ensures { IfOk result (λ t. string_bytes t ≡ fault_sentence kind lent.now) }
{
    match kind {
        FaultKind::NoBranch => String::from_str(heap, NO_BRANCH),
        FaultKind::ZeroDivisor => String::from_str(heap, ZERO_DIVISOR),
        FaultKind::BadShift => String::from_str(heap, BAD_SHIFT),
        FaultKind::TooFewCells => too_few_cells(heap, lent.cells),
        FaultKind::StackFull => stack_full(heap, lent.first, lent.second),
        FaultKind::Stuck => String::from_str(heap, STUCK),
        FaultKind::AllowanceSpent => allowance_spent(heap, lent.allowance),
    }
}
