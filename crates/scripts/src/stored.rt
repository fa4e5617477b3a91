// A stored script: NAME.com, its input NAME.in, and NAME.out, which is what the program `rule` writes.
use super::judging::judge;
use super::tally::Tally;
use super::ways::{CUTS, Setting, found_so};
use checking::Checked;
use last_line::{Outcome, last_line};
use layout::{NODES, Node};
use script_refusals::Refused;
use std::alloc::{AllocError, Global};
use std::{fs, io};
use trial_runs::{Found, Kind, Lent, outcome_of};

// What `rule` lends.
const CELLS: usize = 1000;

const LENT: Lent = Lent {
    first: 1000,
    second: 1000,
    allowance: 1_000_000,
};

// What `rule` writes of a script.
fn written(
    heap: Global,
    text: &[u8],
    output: &[u8],
    outcome: Outcome,
) -> Result<Vec<u8>, AllocError> {
    let mut bytes = output.to_vec(heap)?;
    bytes.push(b'\n')?;
    bytes.extend_from_slice(&last_line(heap, text, outcome)?)?;
    Ok(bytes)
}

// Whether a run wrote what it has to write, and left its store as it was.
fn agrees(heap: Global, text: &[u8], expected: &[u8], found: &Found) -> Result<bool, AllocError> {
    let Some(outcome) = outcome_of(found.end, found.closed.steps) else {
        return Ok(false);
    };
    let bytes = written(heap, text, &found.output, outcome)?;
    Ok(found.is_sound() && bytes.as_slice() == expected)
}

// The ways that were tried, and the steps and bytes of the last.
#[derive(Clone, Copy, Default)]
struct Tried {
    tally: Tally,
    steps: u32,
    bytes: usize,
}

// Every way; a line for each that differs.
fn try_ways(
    rt: &HostRuntime,
    name: &str,
    setting: Setting<'_>,
    expected: &[u8],
) -> io::Result<Tried> {
    let heap = rt.alloc();
    let mut tried = Tried::default();
    for kind in Kind::ALL {
        for cut in CUTS {
            let mut same = false;
            if let Some(found) = found_so(heap, setting, kind, CELLS, cut)? {
                same = agrees(heap, setting.script.text(), expected, &found)?;
                tried.tally.count_run(found.steps, same);
                tried.steps = found.closed.steps;
                tried.bytes = found.output.len();
            }
            if !same {
                let (over, count, room) = (kind.name(), cut.count, cut.room);
                println!(rt;
                    "{name}: over {over}, {count} steps and {room} bytes at a time: different"
                )?;
            }
        }
    }
    Ok(tried)
}

// A script, its input, and what `rule` writes for them.
#[derive(Drop)]
struct Stored {
    text: Vec<u8>,
    input: Vec<u8>,
    expected: Vec<u8>,
}

fn read_stored(rt: &HostRuntime, name: &str) -> io::Result<Stored> {
    let heap = rt.alloc();
    Ok(Stored {
        text: fs::read(rt, format!(in heap; "{name}.com")?)?,
        input: fs::read(rt, format!(in heap; "{name}.in")?)?,
        expected: fs::read(rt, format!(in heap; "{name}.out")?)?,
    })
}

// A script that is accepted: all its ways.
fn try_accepted(
    rt: &HostRuntime,
    name: &str,
    script: &Checked<'_>,
    stored: &Stored,
) -> io::Result<Tally> {
    let setting = Setting {
        script,
        input: &stored.input,
        lent: LENT,
    };
    let Tried {
        mut tally,
        steps,
        bytes,
    } = try_ways(rt, name, setting, &stored.expected)?;
    let (ways, word) = (tally.runs, tally.word());
    println!(rt; "{name}: {steps} steps, {bytes} bytes, {ways} ways, {word}")?;
    tally.count_text(true);
    Ok(tally)
}

// A script that is refused.
fn try_refused(
    rt: &HostRuntime,
    name: &str,
    refused: Refused,
    stored: &Stored,
) -> io::Result<Tally> {
    let bytes = written(rt.alloc(), &stored.text, &[], Outcome::Refused(refused))?;
    let mut tally = Tally::default();
    tally.count_text(bytes.as_slice() == stored.expected.as_slice());
    let (number, word) = (refused.refusal.number(), tally.word());
    println!(rt; "{name}: refused by {number}, {word}")?;
    Ok(tally)
}

// One line for the script, and one for each way that differs.
pub fn try_stored(rt: &HostRuntime, name: &str) -> io::Result<Tally> {
    let stored = read_stored(rt, name)?;
    let mut nodes = vec![in rt.alloc(); Node::UNUSED; NODES]?;
    match judge(&stored.text, &mut nodes) {
        Ok(script) => try_accepted(rt, name, &script, &stored),
        Err(refused) => try_refused(rt, name, refused, &stored),
    }
}
