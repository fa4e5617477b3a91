// The program `embedding`: a host that runs `script.com` over standard input and says how far it came. It is here to be read, and for
// the hosts in `not-built`, each of which is this one with a mistake that the build refuses.
#![tactic(auto)]

mod hosting;

use host::{read_input, read_script};
use hosting::run_script;
use rules::End;
use std::io;
use std::io::Write;

fn main(rt: HostRuntime) -> io::Result<()> {
    let text = read_script(&rt, "script.com")?;
    let input = read_input(&rt)?;
    let mut out = [0; 1000];
    match run_script(&text, &input, &mut out) {
        Ok(advanced) => {
            io::writer(&rt).write_all(&out[..advanced.bytes.min(1000)])?;
            let steps = advanced.steps;
            match advanced.end {
                End::Ended => println!(rt; "ended after {steps} steps"),
                End::Faulted(fault) => {
                    let (number, place) = (fault.kind.number(), fault.place);
                    println!(rt; "fault {number} at {place} after {steps} steps")
                }
                End::Paused | End::OutputFull => println!(rt; "more to come after {steps} steps"),
            }
        }
        Err(refused) => {
            let (number, place) = (refused.refusal.number(), refused.place);
            println!(rt; "refused {number} at {place}")
        }
    }
}
