// Drives every store, and piles of them, through the same long list of calls against a plain list, and prints what it saw.
#![tactic(auto)]

mod calls;
mod clients;
mod driver;
mod model;
mod tally;

use crate::clients::{take_two, use_front};
use crate::driver::drive;
use crate::model::Model;
use crate::tally::Tally;
use cells::records::CellRecord;
use cells::store::CellStore;
use chain::slots::ChainSlot;
use chain::store::ChainStore;
use marked::store::MarkedStore;
use shelf::Shelf;
use std::io;

// What a drive over the store sees.
fn over<S: CellStore>(store: &mut S, cells: &mut [Option<CellRecord>]) -> Tally {
    drive(store, &mut Model::new(cells))
}

// What a drive over a shelf on the store sees.
fn over_shelf<S: CellStore>(below: &mut S, cells: &mut [Option<CellRecord>]) -> Tally {
    over(&mut Shelf::new(below), cells)
}

// A slot as it is handed over. A store makes those that it uses its own; the others must stay so.
const LENT: ChainSlot = ChainSlot::Free(7);

// How many slots past the first 65535 are as they were handed over.
fn untouched<T: PartialEq>(slots: &[T], lent: &T) -> usize {
    slots
        .iter()
        .skip(65535)
        .filter(|slot| *slot == lent)
        .count()
}

fn main(rt: HostRuntime) -> io::Result<()> {
    let out = rt.stdout();
    for size in [0usize, 1, 16, 17, 65535, 65540] {
        let capacity = size.min(65535);
        let mut chain_slots = vec![in rt.alloc(); LENT; size]?;
        let mut marked_slots = vec![in rt.alloc(); Some(CellRecord::bare(7)); size]?;
        let mut cells = vec![in rt.alloc(); None; capacity]?;
        println!(out; "{size} cells handed over")?;
        let seen = over(&mut ChainStore::new(&mut chain_slots), &mut cells);
        println!(out; "  chain: {seen}")?;
        let seen = over(&mut MarkedStore::new(&mut marked_slots), &mut cells);
        println!(out; "  marked: {seen}")?;
        let seen = over_shelf(&mut ChainStore::new(&mut chain_slots), &mut cells);
        println!(out; "  shelf over chain: {seen}")?;
        let seen = over_shelf(&mut MarkedStore::new(&mut marked_slots), &mut cells);
        println!(out; "  shelf over marked: {seen}")?;
        let seen = over_shelf(
            &mut Shelf::new(&mut ChainStore::new(&mut chain_slots)),
            &mut cells,
        );
        println!(out; "  shelf over shelf over chain: {seen}")?;
        let chain_kept = untouched(&chain_slots, &LENT);
        let marked_kept = untouched(&marked_slots, &Some(CellRecord::bare(7)));
        let rest = size - capacity;
        println!(out;
            "  past 65535: {rest} cells, {chain_kept} of the chain's slots and {marked_kept} of the marked ones untouched"
        )?;
    }
    let mut slots = [LENT; 3];
    use_front(&mut slots, CellRecord::bare(1));
    let mut store = ChainStore::new(&mut slots);
    for _ in 0..2 {
        match take_two(&mut store, CellRecord::bare(1), CellRecord::bare(2)) {
            Ok((a, b)) => println!(out; "two of three cells: {a} and {b}")?,
            Err(refusal) => {
                let number = refusal.number();
                let live = store.live_count();
                println!(out; "two more: refused {number}, {live} live")?;
            }
        }
    }
    Ok(())
}
