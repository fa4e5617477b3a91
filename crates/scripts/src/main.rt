// The program `scripts`: runs every script of `scripts.list` and every case of three files, each in many ways, and compares with the answers
// that stand beside them. A way is a kind of store and a cutting of the run into advances; what comes out must not depend on it.
#![tactic(auto)]

mod case_file;
mod case_run;
mod judging;
mod stored;
mod tally;
mod ways;

use case_file::try_file;
use std::{fs, io};
use stored::try_stored;
use tally::Tally;

fn main(rt: HostRuntime) -> io::Result<()> {
    let mut all = Tally::default();
    let names = fs::read_to_string(&rt, "scripts.list")?;
    for name in names.as_str().lines() {
        all.add(try_stored(&rt, name)?);
    }
    for file in ["runs.txt", "refusals.txt", "random.txt"] {
        all.add(try_file(&rt, file)?);
    }
    println!(rt; "all: {all}")
}
