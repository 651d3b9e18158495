//! A store that keeps a map is found on a disk.
ghost use Rattle.std.specs.Prelude.{◌≡◌, IfOk, IfErr};
ghost use Rattle.stored_map.specs.Stores.{IsQuiet, HasBegun, IsLooking};
ghost use Rattle.stored_map.specs.Steps.{Stays};
ghost use Rattle.stored_map.specs.Finding.{IsUnread, FindsMap, FindsNoMap};

use crate::asking::begin;
use crate::failing::failure_of;
use crate::kept::Kept;
use crate::knowing::know_left;
use crate::opening::open_store;
use crate::{CLIENT, SLOTS};
use disk_model::Disk;
use map_calls::{Failure, Unopened};
use object_map::{Client, MapRefusal, ObjectMap};
use shared_store::LoneStore;
use std::alloc::Global;

/// Looks whether the store keeps a map, in the client's transaction, which has begun and goes on.
fn look_at<D: Disk>(
    alloc: Global,
    store: LoneStore<SLOTS, D>,
) -> Result<LoneStore<SLOTS, D>, (Unopened, Kept<D>)>
    requires begun { HasBegun store }
    ensures looking { IfOk result (λ s. IsLooking s) }
    ensures stays { IfOk result (λ s. Stays store s) }
    ensures refused { IfErr result (λ e. IsUnread store e.0 e.1) }
{
    let mut client = Client::new(store, CLIENT);
    match ObjectMap::attach(alloc, &mut client) {
        Ok(_) => Ok(client.into_store()),
        Err(MapRefusal::NotMap { id }) => Err((
            Unopened::NoMap { id },
            Kept::Shut(client.into_store().into_logged().into_disk()),
        )),
        Err(MapRefusal::Memory) => Err((
            Unopened::Unread(Failure::Memory),
            Kept::Stopped(client.into_store()),
        )),
        Err(MapRefusal::Store { reply }) => Err((
            Unopened::Unread(failure_of(reply)),
            Kept::Stopped(client.into_store()),
        )),
    }
}

/// Begins the client's transaction, and looks whether the store keeps a map.
fn look<D: Disk>(
    alloc: Global,
    store: LoneStore<SLOTS, D>,
) -> Result<LoneStore<SLOTS, D>, (Unopened, Kept<D>)>
    requires quiet { IsQuiet store }
    ensures looking { IfOk result (λ s. IsLooking s) }
    ensures stays { IfOk result (λ s. Stays store s) }
    ensures refused { IfErr result (λ e. IsUnread store e.0 e.1) }
{
    let mut store = store;
    match begin(&mut store) {
        Ok(()) => look_at(alloc, store),
        Err(failure) => Err((Unopened::Unread(failure), Kept::Stopped(store))),
    }
}

/// What is kept of the store that the disk holds. Where it isn't opened, or keeps no map, this is the disk; where a look at it was refused,
/// the store, which takes no calls.
pub(crate) fn find<D: Disk>(alloc: Global, disk: D) -> Result<Kept<D>, (Unopened, Kept<D>)>
    ensures found { IfOk result (λ k. FindsMap D.content D.may_leave D.moment D.left_since D.faults disk k) }
    ensures none { IfErr result (λ e. FindsNoMap D.content D.may_leave D.moment D.left_since D.faults disk e.0 e.1) }
{
    match open_store(alloc, disk) {
        Ok(store) => {
            // What a power loss leaves: this call hands it out.
            know_left(&store);
            match look(alloc, store) {
                Ok(store) => Ok(Kept::Looking(store)),
                Err(unread) => Err(unread),
            }
        }
        Err((refusal, disk)) => Err((Unopened::Refused(refusal), Kept::Shut(disk))),
    }
}
