//! Keeps a document as a tree in a store, drops a section of it, and collects what it left: parts that name each other in cycles.
#![tactic(auto)]

mod document;

use document::{FIRST, NEXT, add_section, drop_section};
use object_store::{Disk, MemoryDisk, Options, Ref, Store, Transaction, make};

/// Prints the document: each section, and then its paragraphs.
fn print<D: Disk>(rt: &impl Print, store: &mut Store<D>) -> anyhow::Result<()> {
    let mut t = store.begin()?;
    let root = t.root();
    let mut next = t.get(root, FIRST)?;
    for _ in 0..100 {
        let Some(section) = next else {
            return Ok(());
        };
        println!(rt; "section {}", t.payload(section)?)?;
        print_section(rt, &mut t, section)?;
        next = t.get(section, NEXT)?;
        t.release(section);
    }
    Ok(())
}

/// Prints the paragraphs of a section.
fn print_section<'t, D: Disk>(
    rt: &impl Print,
    t: &mut Transaction<'t, D>,
    section: Ref<'t>,
) -> anyhow::Result<()> {
    let mut next = t.get(section, FIRST)?;
    for _ in 0..100 {
        let Some(part) = next else {
            return Ok(());
        };
        println!(rt; "    paragraph {}", t.payload(part)?)?;
        next = t.get(part, NEXT)?;
        t.release(part);
    }
    Ok(())
}

/// Prints how many objects are stored, and how many wait for the collector.
fn count<D: Disk>(rt: &impl Print, store: &Store<D>) -> anyhow::Result<()> {
    let stored = store.stored()?;
    println!(rt;
        "{} objects, {} wait",
        stored.items().len(),
        store.waiting()
    )?;
    Ok(())
}

fn main(rt: HostRuntime) -> anyhow::Result<()> {
    let mut disk = MemoryDisk::new(rt.alloc());
    let options = Options::new().with_pages(2).with_collector_steps(0);
    make(&mut disk, options)?;
    let mut store = Store::open(rt.alloc(), disk, options).map_err(|refused| refused.0)?;
    add_section(&mut store, 3, &[31])?;
    add_section(&mut store, 2, &[22, 21])?;
    add_section(&mut store, 1, &[13, 12, 11])?;
    print(&rt, &mut store)?;
    count(&rt, &store)?;
    drop_section(&mut store)?;
    print(&rt, &mut store)?;
    count(&rt, &store)?;
    store.collect(1_000)?;
    print(&rt, &mut store)?;
    count(&rt, &store)?;
    Ok(())
}
