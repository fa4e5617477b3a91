// The lines, byte for byte.
ghost use Rattle.std.specs.Prelude.{◌≡◌, ◌++◌, ◌∷◌, [], IfOk, string_bytes};
ghost use Rattle.last_line.specs.LastLines.{fault_front, refused_line, ended_line, fault_line, line_of};
ghost use Rattle.rules.specs.Faults as faults;
ghost use Rattle.script_refusals.specs.Refusals as refusals;

use super::Outcome;
use fault_names::name_of;
use rules::Fault;
use script_refusals::Refused;
use std::alloc::{AllocError, Global};

fn refused_line(heap: Global, refused: Refused) -> Result<String, AllocError>
    ensures { IfOk result (λ line. string_bytes line ≡ refused_line refused) }
{
    let number = refused.refusal.number();
    let place = refused.place;
    format!(in heap; "refused {number} at {place}\n")
}

fn ended_line(heap: Global, steps: u32) -> Result<String, AllocError>
    ensures { IfOk result (λ line. string_bytes line ≡ ended_line steps) }
{
    format!(in heap; "ended {steps}\n")
}

// A fault's line up to the name.
fn fault_front(heap: Global, fault: Fault) -> Result<String, AllocError>
    ensures { IfOk result (λ line. string_bytes line ≡ fault_front fault) }
{
    let number = fault.kind.number();
    let place = fault.place;
    format!(in heap; "fault {number} at {place} in ")
}

// The name is a part of the text or of the basis' names, whatever its bytes.
fn fault_line(heap: Global, text: &[u8], fault: Fault) -> Result<Vec<u8>, AllocError>
    ensures { IfOk result (λ line. line.items ≡ fault_line text.now fault) }
{
    let mut line = fault_front(heap, fault)?.into_bytes();
    line.extend_from_slice(name_of(text, fault.function))?;
    line.push(b'\n')?;
    Ok(line)
}

// The line for what became of the script with this text.
pub fn last_line(heap: Global, text: &[u8], outcome: Outcome) -> Result<Vec<u8>, AllocError>
    ensures { IfOk result (λ line. line.items ≡ line_of text.now outcome) }
{
    match outcome {
        Outcome::Refused(refused) => Ok(refused_line(heap, refused)?.into_bytes()),
        Outcome::Faulted(fault) => fault_line(heap, text, fault),
        Outcome::Ended(steps) => Ok(ended_line(heap, steps)?.into_bytes()),
    }
}
