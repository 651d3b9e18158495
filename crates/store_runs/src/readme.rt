//! The lines that docs/EMBEDDING.md shows to whoever embeds the store.

ghost use Rattle.std.specs.Prelude.{◌≤◌};

use core_store::{Collect, Limits};
use disk_model::MemoryDisk;
use journal_opening::open;
use logged_journal::CollectRefusal;
use plain_model::{Call, Reply};
use restart_store::init;
use std::alloc::Global;
use std::test::Fail;

// Each call with a large contract is made in a function without clauses, and what is done with a store is written for any disk.
// That keeps the proofs short.

/// What the calls of a program answered, and its disk.
struct Closed<D: disk_model::Disk> {
    made: Reply,
    done: Reply,
    idle: Result<Collect, CollectRefusal>,
    disk: D,
}

/// A disk in memory with a new store of so many pages.
fn new_disk(alloc: Global, pages: u16) -> Result<MemoryDisk, Fail>
    requires { (1 ≤ pages) × (pages ≤ 1024) }
{
    let mut disk = MemoryDisk::new(alloc);
    init::<_, 14>(&mut disk, pages)?;
    Ok(disk)
}

/// Opens the store that the disk holds, makes an object that the root names, and closes the store.
fn make_object<D: disk_model::Disk>(alloc: Global, disk: D) -> Result<Closed<D>, Fail> {
    let mut store = open::<_, 14>(alloc, disk, Limits::GREATEST).map_err(|refused| refused.0)?;
    store.call(1, &Call::Begin);
    let made = store.call(1, &Call::Make { into: 1 });
    store.call(
        1,
        &Call::Store {
            r: 0,
            slot: 0,
            from: Some(1),
        },
    );
    let done = store.call(1, &Call::Commit);
    let idle = store.collect_step();
    let disk = store.into_logged().into_disk();
    Ok(Closed {
        made,
        done,
        idle,
        disk,
    })
}

/// The objects of the store that the disk holds.
fn stored_on<D: disk_model::Disk>(alloc: Global, disk: D) -> Result<plain_model::Ids, Fail> {
    let store = open::<_, 14>(alloc, disk, Limits::GREATEST).map_err(|refused| refused.0)?;
    let stored = store.logged().journal().stored()?;
    Ok(stored)
}

#[test]
fn readme(rt: HostRuntime) -> Result<(), Fail> {
    let alloc = rt.alloc();
    let disk = new_disk(alloc, 2)?;
    let Closed {
        made,
        done,
        idle,
        disk,
    } = make_object(alloc, disk)?;
    let stored = stored_on(alloc, disk)?;
    assert!(rt; made == Reply::Id(2));
    assert!(rt; done == Reply::Done);
    assert!(rt; idle == Ok(Collect::Idle));
    assert!(rt; stored.items() == [1, 2].as_slice());
    Ok(())
}
