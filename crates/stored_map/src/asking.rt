//! The begin and the end of the client's transaction.
ghost use Rattle.std.specs.Prelude.{◌≡◌, ◌≤◌, [], OnOk, IfErr};
ghost use Rattle.object_map.specs.Clients.{free_ids, IsClient};
ghost use Rattle.stored_map.specs.Stores.{state_in, IsUnmarked, IsQuiet, HasBegun};
ghost use Rattle.stored_map.specs.Steps.{Stays, KeepsMarks, Refuses, Commits, LosesCommit};

use crate::failing::failure_of;
use crate::knowing::know_left;
use crate::{CLIENT, SLOTS};
use core_store::AbortStep;
use disk_model::Disk;
use map_calls::Failure;
use plain_model::{Call, Reply};
use shared_store::LoneStore;

/// Begins the client's transaction.
pub(crate) fn begin<D: Disk>(store: &mut LoneStore<SLOTS, D>) -> Result<(), Failure>
    requires quiet { IsQuiet store.old }
    ensures begun { OnOk result (HasBegun store.new) }
    ensures stays { OnOk result (Stays store.old store.new) }
    ensures free { OnOk result (free_ids (state_in store.new) ≡ free_ids (state_in store.old)) }
    ensures refused { IfErr result (λ f. Refuses f store.old store.new) }
{
    let reply = store.call(CLIENT, &Call::Begin);
    know_left(store);
    match reply {
        Reply::Done => Ok(()),
        reply => Err(failure_of(reply)),
    }
}

/// Commits the client's transaction.
pub(crate) fn commit<D: Disk>(store: &mut LoneStore<SLOTS, D>) -> Result<(), Failure>
    requires client { IsClient store.old 1 }
    requires unmarked { IsUnmarked store.old }
    ensures done { OnOk result (Commits D.faults store.old store.new) }
    ensures lost { IfErr result (λ f. LosesCommit D.faults f store.old store.new) }
    ensures later { D.faults store.old.disk ≤ D.faults store.new.disk }
{
    let reply = store.call(CLIENT, &Call::Commit);
    match reply {
        Reply::Done => Ok(()),
        reply => Err(failure_of(reply)),
    }
}

/// Undoes the client's transaction, and ends it.
pub(crate) fn abort<D: Disk>(store: &mut LoneStore<SLOTS, D>)
    requires client { IsClient store.old 1 }
    ensures stays { Stays store.old store.new }
    ensures marks { KeepsMarks store.old store.new }
    ensures none { (state_in store.new).active ≡ [] }
    ensures free { free_ids (state_in store.new) ≡ free_ids (state_in store.old) }
{
    'steps: loop {
        match store.abort_step(CLIENT) {
            Ok(AbortStep::Undone) => {}
            Ok(AbortStep::Ended) => return,
            Err(_) => unreachable!(),
        }
    }
}
