//! A loss of power.
ghost use Rattle.std.specs.Prelude.{◌≡◌, ◌≤◌, true, None, OnOk, IfErr};
ghost use Rattle.disk_model.specs.Told.{EachImage};
ghost use Rattle.map_calls.specs.Views.{StaysShut};
ghost use Rattle.stored_map.specs.Stores.{state_in, IsKept, IsKnown, is_running, view_of, leaving, OpensToSame, Tell};
ghost use Rattle.stored_map.specs.Steps.{Holds};
ghost use Rattle.stored_map.specs.Calls.{LosesPower};

use crate::SLOTS;
use crate::finding::find;
use crate::kept::Kept;
use crate::knowing::know_left;
use crate::looking::count;
use disk_model::Disk;
use map_calls::Unopened;
use shared_store::LoneStore;
use std::alloc::Global;
use std::mem;

/// The disk of the store, of which no call failed.
fn disk_in<D: Disk>(store: LoneStore<SLOTS, D>) -> D
    requires running { store.failed ≡ None }
    ensures disk { result ≡ store.disk }
    ensures left { EachImage D.may_leave store.disk (OpensToSame (state_in store).ids (state_in store).committed) }
    ensures known { IsKnown (state_in store) }
{
    // What a power loss leaves: this call hands it out.
    know_left(&store);
    store.into_logged().into_disk()
}

/// The disk, out of the store that is kept.
fn take_disk<D: Disk>(kept: &mut Kept<D>) -> D
    requires kept { IsKept kept.old }
    requires running { is_running kept.old ≡ true }
    ensures holds { Holds D.may_leave (view_of D.faults kept.old) result }
    ensures faults { D.faults result ≡ (view_of D.faults kept.old).faults }
{
    match mem::replace(kept, Kept::Taken) {
        Kept::Idle(store) => disk_in(store),
        Kept::Looking(store) => disk_in(store),
        Kept::Stopped(_) => unreachable!(),
        Kept::Shut(_) => unreachable!(),
        Kept::Taken => unreachable!(),
    }
}

/// Loses power, with this pick of what is left of the disk, and finds the store again.
fn find_again<D: Disk>(alloc: Global, kept: &mut Kept<D>, pick: u32) -> Result<(), Unopened>
    requires kept { IsKept kept.old }
    requires running { is_running kept.old ≡ true }
    ensures running { OnOk result (is_running kept.new ≡ true) }
    ensures same { OnOk result (Tell D.content → (view_of D.faults kept.new).map ≡ (view_of D.faults kept.old).map) }
    ensures shut { IfErr result (λ u. StaysShut (Tell D.content) u (view_of D.faults kept.old) (view_of D.faults kept.new) (leaving D.may_leave kept.new)) }
    ensures later { (view_of D.faults kept.old).faults ≤ (view_of D.faults kept.new).faults }
    ensures kept { IsKept kept.new }
{
    let mut disk = take_disk(kept);
    match disk.lose_power(pick) {
        Ok(()) => {}
        Err(_) => {
            *kept = Kept::Shut(disk);
            return Err(Unopened::Power);
        }
    }
    match find(alloc, disk) {
        Ok(found) => {
            *kept = found;
            Ok(())
        }
        Err((unopened, left)) => {
            *kept = left;
            Err(unopened)
        }
    }
}

/// Loses power, with this pick of what is left of the disk, and opens the store again. Tells how many keys have a value then.
pub(crate) fn lose_power<D: Disk>(
    alloc: Global,
    kept: &mut Kept<D>,
    pick: u32,
) -> Result<u64, Unopened>
    requires kept { IsKept kept.old }
    requires running { is_running kept.old ≡ true }
    ensures loses { LosesPower result (Tell D.content) (view_of D.faults kept.old) (view_of D.faults kept.new) (leaving D.may_leave kept.new) }
    ensures kept { IsKept kept.new }
{
    match find_again(alloc, kept, pick) {
        Ok(()) => match count(alloc, kept) {
            Ok(keys) => Ok(keys),
            Err(failure) => Err(Unopened::Unread(failure)),
        },
        Err(unopened) => Err(unopened),
    }
}
