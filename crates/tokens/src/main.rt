// The program `tokens`: prints the tokens of `script.com`, or says in plain words why the text is refused and where.
#![tactic(auto)]

mod listing;
mod sentences;

use explain::explanation;
use host::read_script;
use listing::list_tokens;
use sentences::text_advice;
use std::io;
use text::{Refused, scan};

fn print_refusal(rt: &HostRuntime, script: &[u8], refused: Refused) -> io::Result<()> {
    let number = refused.refusal.number();
    rt.print(explanation(
        rt.alloc(),
        script,
        number,
        refused.place,
        text_advice(refused),
    )?)
}

fn main(rt: HostRuntime) -> io::Result<()> {
    let script = read_script(&rt, "script.com")?;
    match scan(&script) {
        Ok(count) => list_tokens(&rt, &script, count),
        Err(refused) => print_refusal(&rt, &script, refused),
    }
}
