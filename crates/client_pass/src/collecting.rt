//! The collector beside the clients, and after them.
ghost use Rattle.std.specs.Prelude.{◌≡◌, ◌<◌, ◌^◌, Ok, IfErr};
ghost use Rattle.latch_table.specs.Holds.{IsAlone};
ghost use Rattle.client_pass.specs.Workings.{EndsCollecting, refused_after, refused_by_work};
ghost use Rattle.client_pass.specs.Runs.{Collects, IsCollected};

use crate::ends::WorkEnd;
use core_store::Collect;
use disk_model::Disk;
use plain_model::Reply;
use shared_store::{CollectRefusal, Pass, Store};
use std::sync::atomic::{AtomicU64, Ordering};
use std::thread;

/// What an event of the collector tells.
#[derive(Clone, Copy, PartialEq, Eq, Debug)]
pub(crate) enum Turn {
    /// It was made.
    Made,
    /// Another pass has a word.
    Again,
    /// There is nothing to do.
    Idle,
}

/// Makes one event of the collector.
fn collect<const SLOTS: usize, D: Disk>(
    store: &Store<SLOTS, D>,
    main: &mut Pass<SLOTS, D>,
) -> Result<Turn, WorkEnd>
    requires of { main.old.table ≡ store.now.table }
    ensures of { main.new.table ≡ store.now.table }
    ensures collects { Collects main.old.view main.new.view }
    ensures longer { result ≡ Ok Turn.Made → main.old.view.knowledge.seen < main.new.view.knowledge.seen }
    ensures never_again { IsAlone main.old.view → result ≡ Ok Turn.Again → ⊥ }
    ensures idle { result ≡ Ok Turn.Idle → IsCollected D SLOTS main.new.view }
    ensures err { IfErr result (EndsCollecting D SLOTS main.new.view) }
    ensures refused { main.new.refused ≡ refused_after result main.old.refused }
{
    match store.collect_step(main) {
        Ok(Collect::Did { .. }) => Ok(Turn::Made),
        Ok(Collect::Deleted { .. }) => Ok(Turn::Made),
        Ok(Collect::Idle) => Ok(Turn::Idle),
        Ok(Collect::TraceFull) => Err(WorkEnd::Limit {
            reply: Reply::TraceFull,
        }),
        Ok(Collect::Memory) => Err(WorkEnd::Memory),
        Err(CollectRefusal::Again { .. }) => Ok(Turn::Again),
        Err(CollectRefusal::Stopped { faults }) => Err(WorkEnd::Disk {
            reply: Reply::Stopped { faults },
        }),
        Err(CollectRefusal::LogFull) => Err(WorkEnd::Limit {
            reply: Reply::LogFull,
        }),
    }
}

/// Collects while clients work, of which so many are left, and for so many turns at most.
#[tactic(auto, using(crate::proofs::Events::collects_none, crate::proofs::Events::collects_append))]
pub(crate) fn collect_beside<const SLOTS: usize, D: Disk>(
    store: &Store<SLOTS, D>,
    main: &mut Pass<SLOTS, D>,
    turns: u64,
    left: &AtomicU64,
) -> WorkEnd
    requires of { main.old.table ≡ store.now.table }
    ensures of { main.new.table ≡ store.now.table }
    ensures collects { Collects main.old.view main.new.view }
    ensures end { (result ≡ WorkEnd.Finished → ⊥) → EndsCollecting D SLOTS main.new.view result }
    ensures refused { main.new.refused ≡ refused_by_work result main.old.refused }
{
    'turns: for _ in 0..turns {
        if left.load(Ordering::SeqCst) == 0 {
            return WorkEnd::Finished;
        }
        match collect(store, main) {
            Ok(Turn::Made) => {}
            Ok(Turn::Again | Turn::Idle) => thread::yield_now(),
            Err(end) => return end,
        }
    }
    WorkEnd::Finished
}

/// A length that the history had, which is told by a number of 64 bits.
fn know_seen<const SLOTS: usize, D: Disk>(pass: &Pass<SLOTS, D>)
    ensures { pass.now.view.knowledge.seen < 2 ^ 64 }
{
    let _ = pass.seen();
}

/// Collects until there is nothing to do. No other pass is out, so nothing is in the way and nothing is waited for; and each event
/// makes the history longer, so it ends.
#[tactic(auto, using(crate::proofs::Events::collects_none, crate::proofs::Events::collects_append))]
pub(crate) fn collect_rest<const SLOTS: usize, D: Disk>(
    store: &Store<SLOTS, D>,
    main: &mut Pass<SLOTS, D>,
) -> WorkEnd
    requires of { main.old.table ≡ store.now.table }
    requires alone { IsAlone main.old.view }
    ensures of { main.new.table ≡ store.now.table }
    ensures collects { Collects main.old.view main.new.view }
    ensures idle { result ≡ WorkEnd.Finished → IsCollected D SLOTS main.new.view }
    ensures end { (result ≡ WorkEnd.Finished → ⊥) → EndsCollecting D SLOTS main.new.view result }
    ensures refused { main.new.refused ≡ refused_by_work result main.old.refused }
{
    know_seen(main);
    'turns: loop {
        match collect(store, main) {
            Ok(Turn::Made) => know_seen(main),
            Ok(Turn::Idle) => return WorkEnd::Finished,
            Ok(Turn::Again) => unreachable!(),
            Err(end) => return end,
        }
    }
}
