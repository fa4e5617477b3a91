// A file of cases: each text with its verdict, and each run as it is stored and in other cuttings.
use super::case_run::Replay;
use super::judging::judge;
use super::tally::Tally;
use super::ways::{CUTS, Setting, found_so};
use cases::{Advance, Case, CheckCase, End, RunCase, Unread, next_case};
use expected::{advance_agrees, output_of, steps_of, verdict_agrees};
use layout::{NODES, Node};
use rules::Advanced;
use std::alloc::{AllocError, Global};
use std::{fs, io};
use trial_runs::{Found, Kind, Lent, over};

// A text with its verdict. A text that reading refuses leaves the node list unused.
fn check_tallied(heap: Global, case: &CheckCase<'_>) -> Result<Tally, AllocError> {
    let mut tally = Tally::default();
    let mut nodes = vec![in heap; Node::UNUSED; case.nodes as usize]?;
    let refused = judge(case.text, &mut nodes).err();
    tally.count_text(verdict_agrees(case.verdict, refused));
    Ok(tally)
}

// Whether a run in another cutting came to the same as all stored advances together.
fn comes_to(
    heap: Global,
    text: &[u8],
    advances: &[Advance<'_>],
    last: End<'_>,
    found: &Found,
) -> Result<bool, AllocError> {
    let output = output_of(heap, advances)?;
    let steps = found.closed.steps;
    let together = Advance {
        count: steps,
        room: 0,
        end: last,
        steps,
        bytes: &output,
    };
    let answer = Advanced {
        end: found.end,
        steps,
        bytes: found.output.len(),
    };
    Ok(
        found.is_sound()
            && steps_of(advances) == found.steps
            && advance_agrees(text, &together, answer, &found.output),
    )
}

// As it is stored, over each kind of store.
fn replays_tallied(
    heap: Global,
    setting: Setting<'_>,
    case: &RunCase<'_>,
) -> Result<Tally, AllocError> {
    let mut tally = Tally::default();
    for kind in Kind::ALL {
        let mut replay = Replay {
            heap,
            setting,
            advances: &case.advances,
            close: case.close,
            same: false,
        };
        over(heap, kind, case.sizes.cells as usize, &mut replay)?;
        tally.count_run(steps_of(&case.advances), replay.same);
    }
    Ok(tally)
}

// In other cuttings, if the stored advances lead to an end.
fn cuts_tallied(
    heap: Global,
    setting: Setting<'_>,
    case: &RunCase<'_>,
) -> Result<Tally, AllocError> {
    let mut tally = Tally::default();
    let Some(last) = case.advances.last() else {
        return Ok(tally);
    };
    if matches!(last.end, End::Paused | End::Full) {
        return Ok(tally);
    }
    for kind in Kind::ALL {
        for cut in CUTS {
            if let Some(found) = found_so(heap, setting, kind, case.sizes.cells as usize, cut)? {
                let text = setting.script.text();
                let same = comes_to(heap, text, &case.advances, last.end, &found)?;
                tally.count_run(found.steps, same);
            }
        }
    }
    Ok(tally)
}

// The run of a script that has to be accepted.
fn run_tallied(heap: Global, case: &RunCase<'_>) -> Result<Tally, AllocError> {
    let mut tally = Tally::default();
    let mut nodes = vec![in heap; Node::UNUSED; NODES]?;
    match judge(case.text, &mut nodes) {
        Ok(script) => {
            let setting = Setting {
                script: &script,
                input: case.input,
                lent: Lent {
                    first: case.sizes.first as usize,
                    second: case.sizes.second as usize,
                    allowance: case.sizes.allowance,
                },
            };
            tally.count_text(true);
            tally.add(replays_tallied(heap, setting, case)?);
            tally.add(cuts_tallied(heap, setting, case)?);
        }
        Err(_) => tally.count_text(false),
    }
    Ok(tally)
}

fn tallied(heap: Global, case: &Case<'_>) -> Result<Tally, AllocError> {
    match case {
        Case::Check(check) => check_tallied(heap, check),
        Case::Run(run) => run_tallied(heap, run),
    }
}

// One line for the file, and one for each case that comes out otherwise.
pub fn try_file(rt: &HostRuntime, name: &str) -> io::Result<Tally> {
    let heap = rt.alloc();
    let file = fs::read(rt, name)?;
    let mut tally = Tally::default();
    let mut left = file.as_slice();
    for number in 1..u32::MAX {
        match next_case(heap, left) {
            Ok(Some(at)) => {
                let one = tallied(heap, &at.case)?;
                if one.different > 0 {
                    println!(rt; "{name}: case {number}: {one}")?;
                }
                tally.add(one);
                left = at.rest;
            }
            Ok(None) => break,
            Err(Unread::Malformed(malformed)) => {
                let position = malformed.position(&file);
                let (line, column) = (position.line, position.column);
                println!(rt; "{name}: not read at line {line}, column {column}")?;
                tally.count_text(false);
                break;
            }
            Err(Unread::OutOfMemory(e)) => return Err(io::Error::from(e)),
        }
    }
    println!(rt; "{name}: {tally}")?;
    Ok(tally)
}
