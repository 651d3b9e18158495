//! The two threads of docs/EMBEDDING.md, each of which works through a pass of its own.
ghost use Rattle.std.specs.Prelude.{◌≡◌};
ghost use Rattle.latch_table.specs.Views.{first_station};
ghost use Rattle.share_runs.specs.Passes.{IsClientOf, StaysOf};

use crate::calls::{TestPass, TestStore, ask_on};
use crate::made::{calls_of, close, disk_on, entries_in, objects_in, store_on};
use crate::untold::UntoldDisk;
use disk_model::Disk;
use logged_journal::LoggedJournal;
use plain_model::Call;
use script_lines::SLOTS;
use std::alloc::{AllocError, Global};
use std::sync::Wait;
use std::test::Fail;
use std::thread::{Threads, join_mut};

/// Makes an object with a payload and commits it. No register holds it then.
fn commit<R: Wait>(rt: &R, store: &TestStore, pass: &mut TestPass)
    requires { IsClientOf store.now pass.old }
    ensures { StaysOf store.now pass.old pass.new }
{
    ask_on(rt, store, pass, &Call::Begin);
    ask_on(rt, store, pass, &Call::Make { into: 1 });
    ask_on(rt, store, pass, &Call::SetPay { r: 1, value: 7 });
    ask_on(rt, store, pass, &Call::Commit);
}

/// Does so fifty times.
fn work<R: Wait>(rt: &R, store: &TestStore, pass: &mut TestPass)
    requires { IsClientOf store.now pass.old }
    ensures { StaysOf store.now pass.old pass.new }
{
    'rounds: for _ in 0..50 {
        commit(rt, store, pass);
    }
}

/// What docs/EMBEDDING.md shows.
fn two_threads<R: Threads + Wait + Sync>(
    rt: &R,
    store: TestStore,
    mut main: TestPass,
) -> LoggedJournal<SLOTS, UntoldDisk>
    requires { (main.table ≡ store.table) × (main.view.station ≡ first_station) }
{
    let mut one = store.share(&mut main, 1);
    let mut two = store.share(&mut main, 2);
    join_mut(
        rt,
        &mut || work(rt, &store, &mut one),
        &mut || work(rt, &store, &mut two),
    );
    store.join(&mut main, one);
    store.join(&mut main, two);
    let (logged, _) = close(store, main);
    logged
}

/// Runs that on the store that the disk holds.
fn shared_run<R: Threads + Wait + Sync>(
    rt: &R,
    alloc: Global,
    disk: UntoldDisk,
) -> Result<LoggedJournal<SLOTS, UntoldDisk>, AllocError> {
    let (store, main) = store_on(alloc, disk)?;
    Ok(two_threads(rt, store, main))
}

/// How many entries the history has, how many of them are calls of the first client and of the second, and how many objects are
/// stored.
fn counts<D: Disk>(logged: &LoggedJournal<SLOTS, D>) -> Result<[usize; 4], AllocError> {
    Ok([
        entries_in(logged),
        calls_of(logged, 1),
        calls_of(logged, 2),
        objects_in(logged)?,
    ])
}

/// What two threads leave on a new store.
fn run_and_count<R: Threads + Wait + Sync>(
    rt: &R,
    alloc: Global,
    disk: UntoldDisk,
) -> Result<[usize; 4], AllocError> {
    let logged = shared_run(rt, alloc, disk)?;
    counts(&logged)
}

#[test]
fn readme(rt: HostRuntime) -> Result<(), Fail> {
    let disk = UntoldDisk::over(disk_on(rt.alloc(), 20)?);
    let found = run_and_count(&rt, rt.alloc(), disk)?;
    assert!(rt; found == [400, 200, 200, 101]);
    Ok(())
}
