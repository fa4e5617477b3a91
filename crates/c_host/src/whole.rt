// A script from its text to its end.
ghost use Rattle.std.specs.Prelude.{◌≡◌, IfOk, IfErr};
ghost use Rattle.c_host.specs.Told.{checked, Ran};
ghost use Rattle.rehearsal.specs.Judged.{judgement};

use super::answer::Answer;
use super::sizes::Sizes;
use chain::slots::ChainSlot;
use chain::store::ChainStore;
use layout::{NODES, Node};
use machine::Frame;
use rehearsal::{Ask, conduct};
use shelf::Shelf;
use std::alloc::{AllocError, Global};

// A script is accepted exactly where a run of it could begin: this one has nothing, and takes no step.
pub(crate) fn checked_so(heap: Global, text: &[u8]) -> Result<Answer, AllocError>
    ensures { IfOk result (λ x. x ≡ checked (judgement text.now 4096)) }
{
    let mut nodes = vec![in heap; Node::UNUSED; NODES]?;
    let mut store = ChainStore::new(&mut []);
    match conduct(
        text,
        &mut nodes,
        &mut store,
        &[],
        &mut [],
        &mut [],
        0,
        &mut [],
        &mut [],
    ) {
        Ok(_) => Ok(Answer::ACCEPTED),
        Err(refused) => Ok(Answer::refused(refused)),
    }
}

// One advance, of as many steps as are allowed, and the close.
pub(crate) fn run_so(
    heap: Global,
    text: &[u8],
    input: &[u8],
    out: &mut [u8],
    sizes: Sizes,
) -> Result<Answer, AllocError>
    ensures ran { IfOk result (λ x. Ran input.now sizes out.old (judgement text.now sizes.nodes) x out.new) }
    ensures same { IfErr result (λ e. out.new ≡ out.old) }
{
    let mut nodes = vec![in heap; Node::UNUSED; sizes.nodes as usize]?;
    let mut cells = vec![in heap; ChainSlot::Free(0); sizes.cells as usize]?;
    let mut frames = vec![in heap; Frame::Main; sizes.first as usize]?;
    let mut slots = vec![in heap; None; sizes.second as usize]?;
    let mut chain = ChainStore::new(&mut cells);
    let mut store = Shelf::new(&mut chain);
    let mut asks = [Ask {
        count: u32::MAX,
        room: out.len(),
        answer: None,
    }];
    match conduct(
        text,
        &mut nodes,
        &mut store,
        input,
        &mut frames,
        &mut slots,
        sizes.allowance,
        &mut asks,
        out,
    ) {
        Ok(closed) => {
            let Some(advanced) = asks[0].answer else {
                unreachable()
            };
            Ok(Answer::closed(advanced.end, advanced.bytes, closed))
        }
        Err(refused) => Ok(Answer::refused(refused)),
    }
}
