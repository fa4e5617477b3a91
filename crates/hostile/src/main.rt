// The program `hostile`: thousands of texts from nowhere, always the same ones, through reading and checking; and what is accepted through
// runs, cut as it comes, with few or many cells, entries and steps, over every kind of store, and by hosts who change the store or hand over
// another. It prints how often each answer came: every call has one.
#![tactic(auto)]

mod damage;
mod growth;
mod hunt;
mod random;
mod rough;
mod soup;
mod tally;
mod texts;
mod trials;

use hunt::Hunt;
use random::Random;
use std::{fs, io};
use tally::Tally;
use texts::{Sort, Stored};

const SEED: u32 = 2463534242;

// The scripts that are damaged, with their inputs.
fn read_scripts(rt: &HostRuntime) -> io::Result<Vec<Stored>> {
    let heap = rt.alloc();
    let names = fs::read_to_string(rt, "scripts.list")?;
    let mut scripts = Vec::new(heap);
    for name in names.as_str().lines() {
        let text = fs::read(rt, format!(in heap; "{name}.com")?)?;
        let input = fs::read(rt, format!(in heap; "{name}.in")?)?;
        scripts.push(Stored { text, input })?;
    }
    Ok(scripts)
}

// The answers of runs, where there were any.
fn print_ends(rt: &HostRuntime, title: &str, tally: &Tally) -> io::Result<()> {
    if tally.is_empty() {
        return Ok(());
    }
    let (unended, wrong, stuck) = (tally.unended, tally.wrong, tally.stuck);
    println!(rt; "  {title}: {tally}; {unended} given up, {wrong} wrong, {stuck} closes stuck")
}

// What came of the texts of one sort.
fn print_hunt(rt: &HostRuntime, sort: Sort, hunt: &Hunt) -> io::Result<()> {
    let (name, count) = (sort.name(), sort.count());
    let (texts, wrong, changed) = (&hunt.texts, hunt.texts.wrong, &hunt.changed);
    println!(rt; "{count} {name}: {texts}; {wrong} wrong")?;
    if !changed.is_empty() {
        println!(rt; "  with another node list: {changed}")?;
    }
    print_ends(rt, "runs", &hunt.ends.rightly)?;
    print_ends(rt, "over a changed store", &hunt.ends.meddled)?;
    print_ends(rt, "over two stores", &hunt.ends.swapped)
}

fn main(rt: HostRuntime) -> io::Result<()> {
    let heap = rt.alloc();
    let scripts = read_scripts(&rt)?;
    let mut random = Random::new(SEED);
    for sort in Sort::ALL {
        let mut hunt = Hunt::new(random);
        for _ in 0..sort.count() {
            let stored = sort.made(heap, &mut hunt.random, &scripts)?;
            hunt.on_text(heap, &stored)?;
        }
        print_hunt(&rt, sort, &hunt)?;
        random = hunt.random;
    }
    Ok(())
}
