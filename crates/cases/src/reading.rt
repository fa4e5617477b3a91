// A file, case by case.
ghost use Rattle.cases.specs.Reading.{Reads};

use super::Unread;
use super::case::Case;
use super::front::Front;
use std::alloc::Global;

// The next case, and what is left of the file behind it.
#[derive(Drop)]
pub struct CaseAt<'c> {
    pub case: Case<'c>,
    pub rest: &'c [u8],
}

// The case at the front of what is left of a file; none where nothing is left but newlines.
pub fn next_case(heap: Global, left: &[u8]) -> Result<Option<CaseAt<'_>>, Unread>
    ensures { Reads left.now result }
{
    let mut front = Front { left };
    front.skip_newlines();
    if front.left.is_empty() {
        return Ok(None);
    }
    let text = front.told_block(b"text ")?;
    let case = if front.left.starts_with(b"nodes ") {
        Case::Check(front.check_case(text)?)
    } else {
        Case::Run(front.run_case(heap, text)?)
    };
    Ok(Some(CaseAt {
        case,
        rest: front.left,
    }))
}
