// The program `outline`: prints what `script.com` declares and whether it passes the check, or says in plain words why it is refused and
// where.
#![tactic(auto)]

mod declared;
mod size;
mod types;

use advice::explain_refusal;
use checking::check;
use declared::print_declared;
use first_uses::explain_check;
use host::read_script;
use layout::{NODES, Node};
use parser::{Script, read};
use script_refusals::Refused;
use std::io;

// Whether a script passes the check.
fn print_checked(
    rt: &HostRuntime,
    script: &Script<'_>,
    text: &[u8],
    nodes: &[Node],
) -> io::Result<()> {
    match check(script, text, nodes) {
        Ok(checked) => {
            let counts = checked.counts();
            let functions = script.tables().functions.count;
            let (nodes, constructors) = (counts.nodes, counts.constructors);
            println!(rt;
                "checked: {nodes} nodes, {functions} functions, {constructors} constructors"
            )
        }
        Err(refused) => rt.print(explain_check(rt.alloc(), text, nodes, refused)?),
    }
}

fn main(rt: HostRuntime) -> io::Result<()> {
    let text = read_script(&rt, "script.com")?;
    let mut nodes = vec![in rt.alloc(); Node::UNUSED; NODES]?;
    match read(&text, &mut nodes) {
        Ok(script) => {
            print_declared(&rt, &script)?;
            print_checked(&rt, &script, &text, &nodes)
        }
        Err(refused) => rt.print(explain_refusal(rt.alloc(), &text, Refused::from(refused))?),
    }
}
