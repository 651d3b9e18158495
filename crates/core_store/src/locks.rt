//! Locks that nobody stands in the way of.
ghost use Rattle.std.specs.Prelude.{◌≡◌, OnErr, OnOk};
ghost use Rattle.strict_locks.specs.Locks.{holders_of, AddsShare, AddsOwner, StandsInWayOfShare, StandsInWayOfOwn, Nobody};

use plain_model::Memory;
use std::alloc::AllocError;
use strict_locks::{LockRefusal, LockTable};

/// Lets the client share the object, which no other client owns.
pub(crate) fn share(locks: &mut LockTable, pass: u8, id: u32) -> Result<(), Memory>
    requires { Nobody (StandsInWayOfShare (holders_of locks.old id) pass) }
    ensures ok { OnOk result (AddsShare locks.old locks.new pass id) }
    ensures err { OnErr result (locks.new ≡ locks.old) }
{
    match locks.share(pass, id) {
        Ok(()) => Ok(()),
        Err(LockRefusal::Memory | LockRefusal::Busy { .. }) => Err(AllocError),
    }
}

/// Lets the client own the object, which no other client holds.
#[inline(always)]
pub(crate) fn own(locks: &mut LockTable, pass: u8, id: u32) -> Result<(), Memory>
    requires { Nobody (StandsInWayOfOwn (holders_of locks.old id) pass) }
    ensures ok { OnOk result (AddsOwner locks.old locks.new pass id) }
    ensures err { OnErr result (locks.new ≡ locks.old) }
{
    match locks.own(pass, id) {
        Ok(()) => Ok(()),
        Err(LockRefusal::Memory | LockRefusal::Busy { .. }) => Err(AllocError),
    }
}
