//! The lock of each object.
ghost use Rattle.std.specs.Prelude.{◌≡◌, OnOk, OnErr};
ghost use Rattle.strict_locks.specs.Locks.{holders_of, is_owner, is_sharer, is_holder, only_shares, Holds, IsExclusive, StandsInWayOfShare, StandsInWayOfOwn, Nobody, IsLeastOrNone, AddsShare, AddsOwner, GivesBack, DropsAll, AreHeld};
ghost use Rattle.strict_locks.specs.Clients.{NamesHeld};
ghost use Rattle.strict_locks.specs.Standing.{IsStanding};

use crate::object_lock::ObjectLock;
use crate::rows::LockRows;
use crate::standing::Standing;
use std::alloc::AllocError;

/// The client that keeps this one from sharing the object.
pub(crate) fn other_owner(locks: &LockRows, pass: u8, id: u32) -> Option<u8>
    ensures { IsLeastOrNone (StandsInWayOfShare (holders_of locks.now id) pass) result }
{
    locks.get(id)?.other_owner(pass)
}

/// The least client that keeps this one from owning the object.
pub(crate) fn other_holder(locks: &LockRows, pass: u8, id: u32) -> Option<u8>
    ensures { IsLeastOrNone (StandsInWayOfOwn (holders_of locks.now id) pass) result }
{
    locks.get(id)?.other_holder(pass)
}

/// The least client that holds the object.
pub(crate) fn least_holder(locks: &LockRows, id: u32) -> Option<u8>
    ensures least { IsLeastOrNone (Holds (holders_of locks.now id)) result }
    ensures exclusive { IsExclusive (holders_of locks.now id) }
{
    locks.get(id)?.least_holder()
}

/// How the client stands to sharing the object.
pub(crate) fn standing_to_share(locks: &LockRows, pass: u8, id: u32) -> Standing
    ensures { IsStanding (StandsInWayOfShare (holders_of locks.now id) pass) (is_sharer (holders_of locks.now id) pass) (is_holder (holders_of locks.now id) pass) result }
{
    match locks.get(id) {
        Some(lock) => lock.standing_to_share(pass),
        None => Standing::Free,
    }
}

/// How the client stands to owning the object.
pub(crate) fn standing_to_own(locks: &LockRows, pass: u8, id: u32) -> Standing
    ensures { IsStanding (StandsInWayOfOwn (holders_of locks.now id) pass) (is_owner (holders_of locks.now id) pass) (is_holder (holders_of locks.now id) pass) result }
{
    match locks.get(id) {
        Some(lock) => lock.standing_to_own(pass),
        None => Standing::Free,
    }
}

/// Whether the client shares the object and doesn't own it.
pub(crate) fn only_shares(locks: &LockRows, pass: u8, id: u32) -> bool
    ensures { result ≡ only_shares (holders_of locks.now id) pass }
{
    match locks.get(id) {
        Some(lock) => lock.only_shares(pass),
        None => false,
    }
}

/// Adds the client to those that share the object. Out of memory leaves the locks as they were.
pub(crate) fn share(locks: &mut LockRows, pass: u8, id: u32) -> Result<(), AllocError>
    requires { Nobody (StandsInWayOfShare (holders_of locks.old id) pass) }
    ensures adds { OnOk result (AddsShare locks.old locks.new pass id) }
    ensures held { AreHeld locks.old → AreHeld locks.new }
    ensures err { OnErr result (locks.new ≡ locks.old) }
{
    match locks.get_mut(id) {
        Some(lock) => {
            lock.share(pass);
            Ok(())
        }
        None => {
            locks.push(id, ObjectLock::shared_by(pass))?;
            Ok(())
        }
    }
}

/// Makes the client the owner of the object, which it shares.
pub(crate) fn own(locks: &mut LockRows, pass: u8, id: u32)
    requires free { Nobody (StandsInWayOfOwn (holders_of locks.old id) pass) }
    requires holds { Holds (holders_of locks.old id) pass }
    ensures adds { AddsOwner locks.old locks.new pass id }
    ensures held { AreHeld locks.old → AreHeld locks.new }
{
    if let Some(lock) = locks.get_mut(id) {
        lock.own(pass);
    }
}

/// Makes the client the owner of the object, which nobody holds. Out of memory leaves the locks as they were.
pub(crate) fn own_first(locks: &mut LockRows, pass: u8, id: u32) -> Result<(), AllocError>
    requires free { Nobody (Holds (holders_of locks.old id)) }
    requires held { AreHeld locks.old }
    ensures adds { OnOk result (AddsOwner locks.old locks.new pass id) }
    ensures held { AreHeld locks.old → AreHeld locks.new }
    ensures err { OnErr result (locks.new ≡ locks.old) }
{
    locks.push(id, ObjectLock::owned_by(pass))?;
    Ok(())
}

/// Takes the client from the holders of the object.
pub(crate) fn give_back(locks: &mut LockRows, pass: u8, id: u32)
    ensures gives { GivesBack locks.old locks.new pass id }
    ensures held { AreHeld locks.old → AreHeld locks.new }
{
    let Some(lock) = locks.get(id) else {
        return;
    };
    if lock.other_holder(pass).is_none() {
        locks.remove(id);
    } else if let Some(lock) = locks.get_mut(id) {
        lock.give_back(pass);
    }
}

/// Gives all of the client's locks back. The list names each object that the client holds. The last one
/// is given back first, as its lock most often is the last one too, and then no other lock is moved into
/// its place.
pub(crate) fn give_back_all(locks: &mut LockRows, pass: u8, ids: &[u32])
    requires { NamesHeld locks.old pass ids.now }
    ensures drops { DropsAll locks.old locks.new pass }
    ensures held { AreHeld locks.old → AreHeld locks.new }
{
    for id in ids.iter().rev() {
        give_back(locks, pass, *id);
    }
}
