// What a host does to run a script: a dozen lines.
use chain::slots::ChainSlot;
use chain::store::ChainStore;
use checking::check;
use layout::{NODES, Node};
use machine::Frame;
use parser::read;
use rules::Advanced;
use run::{advance, close, open};
use script_refusals::Refused;
use shelf::Shelf;

// Runs a script over an input. What it prints goes to the front of the slice; the answer says how far it came, or why it is refused.
pub fn run_script(text: &[u8], input: &[u8], out: &mut [u8]) -> Result<Advanced, Refused> {
    let mut nodes = [Node::UNUSED; NODES];
    let script = read(text, &mut nodes)?;
    let checked = check(&script, text, &nodes)?;
    let (mut frames, mut slots) = ([Frame::Main; 100], [None; 100]);
    let mut cells = [ChainSlot::Free(0); 1000];
    let mut chain = ChainStore::new(&mut cells);
    let mut store = Shelf::new(&mut chain);
    let (mut run, token) = open(&checked, &store, input, &mut frames, &mut slots, 1_000_000);
    let advanced = advance(&mut run, &token, &mut store, out, u32::MAX);
    close(&mut run, token, &mut store);
    Ok(advanced)
}
