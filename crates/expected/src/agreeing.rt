// Whether an answer is the expected one, part by part.
ghost use Rattle.std.specs.Prelude.{◌≡◌, ◌==◌, ◌↔◌, IsTrue};
ghost use Rattle.std.specs.Str.{bytes_eq};
ghost use Rattle.expected.specs.Agreeing.{VerdictAgrees, FaultAgrees, EndAgrees, AdvanceAgrees, CloseAgrees};

use fault_names::name_of;
use rules::{Advanced, Closed};
use script_refusals::Refused;

// A script with this verdict expected was accepted, or refused with a number at a place.
// Functions and no `==`: the two sides are types of other crates, and not the same.
pub fn verdict_agrees(expected: Result<(), cases::Refused>, refused: Option<Refused>) -> bool
    ensures { IsTrue result ↔ VerdictAgrees expected refused }
{
    match (expected, refused) {
        (Ok(_), None) => true,
        (Err(told), Some(refused)) => {
            told.number == u32::from(refused.refusal.number())
                && told.place as usize == refused.place
        }
        _ => false,
    }
}

fn fault_agrees(text: &[u8], expected: &cases::Fault<'_>, fault: rules::Fault) -> bool
    ensures { IsTrue result ↔ FaultAgrees text.now expected.now fault }
{
    expected.number == u32::from(fault.kind.number())
        && expected.place == u32::from(fault.place)
        && expected.name == name_of(text, fault.function)
}

fn end_agrees(text: &[u8], expected: &cases::End<'_>, end: rules::End) -> bool
    ensures { IsTrue result ↔ EndAgrees text.now expected.now end }
{
    match (expected, end) {
        (cases::End::Ended, rules::End::Ended) => true,
        (cases::End::Paused, rules::End::Paused) => true,
        (cases::End::Full, rules::End::OutputFull) => true,
        (cases::End::Faulted(told), rules::End::Faulted(fault)) => fault_agrees(text, told, fault),
        _ => false,
    }
}

// An advance of a run of the script with this text answered so and wrote these bytes.
pub fn advance_agrees(
    text: &[u8],
    expected: &cases::Advance<'_>,
    answer: Advanced,
    written: &[u8],
) -> bool
    ensures { IsTrue result ↔ AdvanceAgrees text.now expected.now answer written.now }
{
    end_agrees(text, &expected.end, answer.end)
        && expected.steps == answer.steps
        && expected.bytes == written
}

pub fn close_agrees(expected: cases::Close, answer: Closed) -> bool
    ensures { IsTrue result ↔ CloseAgrees expected answer }
{
    expected.steps == answer.steps
        && u64::from(expected.taken) == answer.taken
        && u64::from(expected.given_back) == answer.given_back
        && !answer.stuck
}
