//! Keeps a queue of numbers in a store of sixteen objects: it is filled and emptied, over two openings of its disk. The store does its upkeep by itself.
#![tactic(auto)]

mod queue;

use object_store::{Disk, MemoryDisk, Options, Store, make};
use queue::{lose, put, take};

/// Puts numbers into the queue until it takes no more, and prints the reason.
fn fill<D: Disk>(rt: &impl Print, store: &mut Store<D>) -> anyhow::Result<()> {
    for number in 1..20 {
        if let Err(why) = put(store, number) {
            println!(rt; "{number}: {why}")?;
            return Ok(());
        }
    }
    Ok(())
}

/// Takes numbers out of the queue, and prints them.
fn drain<D: Disk>(rt: &impl Print, store: &mut Store<D>, most: u32) -> anyhow::Result<()> {
    for _ in 0..most {
        match take(store)? {
            Some(number) => println!(rt; "{number}")?,
            None => println!(rt; "empty")?,
        }
    }
    Ok(())
}

/// Prints how much upkeep is left to do.
fn show<D: Disk>(rt: &impl Print, store: &Store<D>) -> anyhow::Result<()> {
    println!(rt;
        "{} wait, {} bytes of log",
        store.waiting(),
        store.log_used()
    )?;
    Ok(())
}

fn main(rt: HostRuntime) -> anyhow::Result<()> {
    let mut disk = MemoryDisk::new(rt.alloc());
    let options = Options::new().with_pages(2).with_soft_log_limit(400);
    make(&mut disk, options)?;
    let mut store = Store::open(rt.alloc(), disk, options).map_err(|refused| refused.0)?;
    fill(&rt, &mut store)?;
    show(&rt, &store)?;
    lose(&mut store)?;
    drain(&rt, &mut store, 3)?;
    let disk = store.close();
    let mut store = Store::open(rt.alloc(), disk, options).map_err(|refused| refused.0)?;
    fill(&rt, &mut store)?;
    show(&rt, &store)?;
    drain(&rt, &mut store, 20)?;
    store.tend(1_000)?;
    show(&rt, &store)?;
    Ok(())
}
