// The program `speed`: runs `script.com` several times and says how fast, on standard error, since no two times are alike; standard output has
// how many steps a run takes. It lends more than `rule`, and a store without a shelf.
#![tactic(auto)]

mod timed;

use checking::check;
use host::read_script;
use layout::{NODES, Node};
use parser::read;
use script_refusals::Refused;
use std::alloc::Global;
use std::io;
use timed::{Timed, best_of};

// Reads and checks the script, and times its runs.
fn time(rt: &HostRuntime, heap: Global, text: &[u8]) -> io::Result<Result<Timed, Refused>> {
    let mut nodes = vec![in heap; Node::UNUSED; NODES]?;
    let script = match read(text, &mut nodes) {
        Ok(script) => script,
        Err(refused) => return Ok(Err(Refused::from(refused))),
    };
    match check(&script, text, &nodes) {
        Ok(checked) => Ok(Ok(best_of(rt, &checked)?)),
        Err(refused) => Ok(Err(refused)),
    }
}

fn main(rt: HostRuntime) -> io::Result<()> {
    let text = read_script(&rt, "script.com")?;
    match time(&rt, rt.alloc(), &text)? {
        Ok(timed) => {
            let (steps, cells) = (timed.closed.steps, timed.closed.taken);
            println!(rt; "{steps} steps, {cells} cells taken")?;
            let nanoseconds = timed.nanoseconds;
            eprintln!(rt; "{nanoseconds} ns")
        }
        Err(refused) => {
            let (number, place) = (refused.refusal.number(), refused.place);
            println!(rt; "refused {number} at {place}")
        }
    }
}
