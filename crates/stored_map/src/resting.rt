//! A store in which no client has a transaction, and its collection.
ghost use Rattle.std.specs.Prelude.{◌≡◌, true, OnOk, ⊤};
ghost use Rattle.stored_map.specs.Stores.{IsIdle, IsKept, is_running, view_at, view_of, leaving};
ghost use Rattle.stored_map.specs.Calls.{Looks};

use crate::SLOTS;
use crate::asking::abort;
use crate::collecting::collect;
use crate::kept::Kept;
use crate::knowing::know_left;
use disk_model::Disk;
use map_calls::Failure;
use shared_store::LoneStore;
use std::mem;

/// The store without a transaction.
fn take_idle<D: Disk>(kept: &mut Kept<D>) -> LoneStore<SLOTS, D>
    requires kept { IsKept kept.old }
    requires running { is_running kept.old ≡ true }
    ensures idle { IsIdle result }
    ensures same { view_at D.faults true result ≡ view_of D.faults kept.old }
{
    match mem::replace(kept, Kept::Taken) {
        Kept::Idle(store) => store,
        Kept::Looking(store) => {
            let mut store = store;
            abort(&mut store);
            store
        }
        Kept::Stopped(_) => unreachable!(),
        Kept::Shut(_) => unreachable!(),
        Kept::Taken => unreachable!(),
    }
}

/// Makes steps of the collector until there is nothing to do: after it all ids are free that can be.
pub(crate) fn collect_all<D: Disk>(kept: &mut Kept<D>) -> Result<(), Failure>
    requires kept { IsKept kept.old }
    requires running { is_running kept.old ≡ true }
    ensures looks { Looks result (λ _. ⊤) (view_of D.faults kept.old) (view_of D.faults kept.new) (leaving D.may_leave kept.new) }
    ensures room { OnOk result ((view_of D.faults kept.new).room ≡ (view_of D.faults kept.new).map.free) }
    ensures kept { IsKept kept.new }
{
    let mut store = take_idle(kept);
    know_left(&store);
    match collect(&mut store) {
        Ok(()) => {
            know_left(&store);
            *kept = Kept::Idle(store);
            Ok(())
        }
        Err(failure) => {
            know_left(&store);
            *kept = Kept::Stopped(store);
            Err(failure)
        }
    }
}
