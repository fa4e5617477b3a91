// Sizes, copies and drops long lists, deep and wide trees, and data that is no tree, on every store, and prints what it
// counted. Every store is empty at the end.
#![tactic(auto)]

use cell_data::copies::copy_value;
use cells::store::CellStore;
use chain::slots::ChainSlot;
use chain::store::ChainStore;
use marked::store::MarkedStore;
use shelf::Shelf;
use std::io;
use tours::tour::walk_all;

// Prints what was seen on a tour over the store, under the store's name.
// It stands in both programs, which differ in how they copy: a closure cannot be generic over the store, so none can be passed in.
fn tell<S: CellStore>(rt: &HostRuntime, name: &str, store: &mut S) -> io::Result<()> {
    if let Ok(tour) = walk_all(store, &copy_value, true) {
        println!(rt; "{name}\n{tour}")?;
    }
    Ok(())
}

fn main(rt: HostRuntime) -> io::Result<()> {
    let mut chain_slots = vec![in rt.alloc(); ChainSlot::Free(0); 65535]?;
    let mut marked_slots = vec![in rt.alloc(); None; 65535]?;
    tell(&rt, "chain", &mut ChainStore::new(&mut chain_slots))?;
    tell(&rt, "marked", &mut MarkedStore::new(&mut marked_slots))?;
    tell(
        &rt,
        "shelf over chain",
        &mut Shelf::new(&mut ChainStore::new(&mut chain_slots)),
    )?;
    tell(
        &rt,
        "shelf over marked",
        &mut Shelf::new(&mut MarkedStore::new(&mut marked_slots)),
    )?;
    Ok(())
}
