//! The table of the locks that clients hold.
ghost use Rattle.std.specs.List.{IsDistinct};
ghost use Rattle.std.specs.Ordering.{nat_cmp, eq_by_cmp};
ghost use Rattle.std.specs.Prelude.{◌≡◌, ℕ, [], OnOk, OnErr, IfErr, true};

use crate::held_ids::HeldIds;
use crate::refusal::LockRefusal;
use crate::rows::LockRows;
use crate::standing::Standing;
use crate::{clients, objects};
use std::alloc::Global;
use std::marker::Model;

/// The locks that clients hold. A client keeps each lock until it gives all of its locks back, but that it may give a shared lock back
/// before.
///
/// A shared lock is granted exactly where no other client owns the object. An exclusive lock, or
/// the upgrade to one, is granted exactly where no other client holds the object at all. A client
/// that owns an object and shares it keeps both facts. No call waits. None but `drop_all` goes over what a client holds.
///
/// `pass` is the client's number and `id` the object's. The table takes any number. Its memory grows with the
/// greatest id that was ever locked and is not given back, so it is made for ids that are dense, as a store's are.
#[derive(Debug, Drop)]
pub struct LockTable {
    alloc: Global,
    locks: LockRows,
    /// The objects that each client holds, at its number.
    lists: Vec<HeldIds>,
}

impl Model for LockTable {
    ghost use Rattle.strict_locks.specs.Locks.{Table};
    ghost use Rattle.strict_locks.specs.Clients.{AreSound};

    ghost Value = { Table };

    ghost view = { λ a. a.locks };

    ghost invariant = { λ a. AreSound a.locks a.lists.items };
}

impl LockTable {
    ghost use Rattle.strict_locks.specs.Locks.{holders_of, Holds, IsExclusive, NamesExactly, StandsInWay, StandsInWayOfShare, StandsInWayOfOwn, Nobody, IsLeastOrNone, only_shares, AddsShare, AddsOwner, GivesBack, DropsAll};
    ghost use Rattle.strict_locks.specs.Refusal.{IsRefusal};

    /// The table without a lock. Where there is no memory for the first locks yet, each takes its own.
    pub fn new(alloc: Global) -> LockTable
        ensures { result ≡ [] }
    {
        LockTable {
            alloc,
            locks: LockRows::new(alloc),
            lists: Vec::new(alloc),
        }
    }

    /// Lets the client share the object.
    ///
    /// `Busy` comes exactly where another client owns the object, and names it. `Memory` says that
    /// nobody stands in the way, but memory ran out. Both leave the table as it was.
    pub fn share(&mut self, pass: u8, id: u32) -> Result<(), LockRefusal>
        ensures granted { OnOk result (AddsShare self.old self.new pass id) }
        ensures free { OnOk result (Nobody (StandsInWayOfShare (holders_of self.old id) pass)) }
        ensures busy { IfErr result (IsRefusal (StandsInWayOfShare (holders_of self.old id) pass)) }
        ensures err { OnErr result (self.new ≡ self.old) }
    {
        match objects::standing_to_share(&self.locks, pass, id) {
            Standing::Blocked(owner) => return Err(LockRefusal::Busy { pass: owner }),
            Standing::Granted => return Ok(()),
            Standing::Held => {
                objects::share(&mut self.locks, pass, id)?;
                return Ok(());
            }
            Standing::Free => {}
        }
        clients::add(&mut self.lists, self.alloc, pass, id)?;
        match objects::share(&mut self.locks, pass, id) {
            Ok(()) => Ok(()),
            Err(refused) => {
                clients::take_out(&mut self.lists, pass, id);
                Err(refused.into())
            }
        }
    }

    /// Lets the client own the object, or upgrades its shared lock.
    ///
    /// `Busy` comes exactly where another client holds the object, and names the least. `Memory`
    /// says that nobody stands in the way, but memory ran out. Both leave the table as it was.
    pub fn own(&mut self, pass: u8, id: u32) -> Result<(), LockRefusal>
        ensures granted { OnOk result (AddsOwner self.old self.new pass id) }
        ensures free { OnOk result (Nobody (StandsInWayOfOwn (holders_of self.old id) pass)) }
        ensures busy { IfErr result (IsRefusal (StandsInWayOfOwn (holders_of self.old id) pass)) }
        ensures err { OnErr result (self.new ≡ self.old) }
    {
        match objects::standing_to_own(&self.locks, pass, id) {
            Standing::Blocked(holder) => return Err(LockRefusal::Busy { pass: holder }),
            Standing::Granted => return Ok(()),
            Standing::Held => {
                objects::own(&mut self.locks, pass, id);
                return Ok(());
            }
            Standing::Free => {}
        }
        clients::add(&mut self.lists, self.alloc, pass, id)?;
        match objects::own_first(&mut self.locks, pass, id) {
            Ok(()) => Ok(()),
            Err(refused) => {
                clients::take_out(&mut self.lists, pass, id);
                Err(refused.into())
            }
        }
    }

    /// The objects that the client holds, each once. It takes no memory.
    pub fn held(&self, pass: u8) -> &[u32]
        ensures exact { NamesExactly self.now pass result.now }
        ensures once { IsDistinct (eq_by_cmp nat_cmp) result.now }
    {
        clients::list(&self.lists, pass)
    }

    /// Whether the client shares the object and doesn't own it. It takes no memory.
    pub fn shares(&self, pass: u8, id: u32) -> bool
        ensures { result ≡ only_shares (holders_of self.now id) pass }
    {
        objects::only_shares(&self.locks, pass, id)
    }

    /// Gives the client's shared lock on the object back. It takes no memory, and goes over nothing that the client holds.
    pub fn drop_shared(&mut self, pass: u8, id: u32)
        requires { only_shares (holders_of self.old id) pass ≡ true }
        ensures { GivesBack self.old self.new pass id }
    {
        objects::give_back(&mut self.locks, pass, id);
        clients::take_out(&mut self.lists, pass, id);
    }

    /// Gives all of the client's locks back. It takes no memory, and goes only over the objects
    /// that the client holds.
    pub fn drop_all(&mut self, pass: u8)
        ensures { DropsAll self.old self.new pass }
    {
        objects::give_back_all(&mut self.locks, pass, clients::list(&self.lists, pass));
        clients::clear(&mut self.lists, pass);
    }

    /// The least client that owns or shares the object, and `None` where nobody does.
    pub fn holder(&self, id: u32) -> Option<u8>
        ensures least { IsLeastOrNone (Holds (holders_of self.now id)) result }
        ensures exclusive { IsExclusive (holders_of self.now id) }
    {
        objects::least_holder(&self.locks, id)
    }

    /// The client that `own`, where `alone` is true, or `share` would name in `Busy`, and `None`
    /// exactly where that lock would be granted.
    #[inline(always)]
    pub fn blocks(&self, pass: u8, id: u32, alone: bool) -> Option<u8>
        ensures { IsLeastOrNone (StandsInWay alone (holders_of self.now id) pass) result }
    {
        if alone {
            objects::other_holder(&self.locks, pass, id)
        } else {
            objects::other_owner(&self.locks, pass, id)
        }
    }
}
