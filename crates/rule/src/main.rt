// The program `rule`: runs `script.com` over the first bytes of standard input. It writes the output, a newline, and a last line that says how
// the run ended or why the script is refused; people read the reason in words on standard error.
#![tactic(auto)]

mod lending;
mod running;
mod words;

use checking::check;
use host::{read_input, read_script};
use last_line::{Outcome, last_line};
use layout::{NODES, Node};
use parser::read;
use running::run_to_its_end;
use script_refusals::Refused;
use std::io;
use std::io::Write;
use words::explain;

// What becomes of the script.
fn outcome_of(rt: &HostRuntime, text: &[u8], input: &[u8]) -> io::Result<Outcome> {
    let mut nodes = vec![in rt.alloc(); Node::UNUSED; NODES]?;
    let script = match read(text, &mut nodes) {
        Ok(script) => script,
        Err(refused) => return Ok(Outcome::Refused(Refused::from(refused))),
    };
    match check(&script, text, &nodes) {
        Ok(checked) => run_to_its_end(rt, &checked, input),
        Err(refused) => Ok(Outcome::Refused(refused)),
    }
}

fn main(rt: HostRuntime) -> io::Result<()> {
    let text = read_script(&rt, "script.com")?;
    let input = read_input(&rt)?;
    let outcome = outcome_of(&rt, &text, &input)?;
    let line = last_line(rt.alloc(), &text, outcome)?;
    let mut out = io::writer(&rt);
    out.write_all(b"\n")?;
    out.write_all(&line)?;
    explain(&rt, &text, outcome)
}
