//! A store that keeps an ordered map.
ghost use Rattle.std.specs.Prelude.{◌≡◌, ◌≤◌, true, length, IfOk, IfErr, OnOk};
ghost use Rattle.plain_map.specs.Pairs.{value_of};
ghost use Rattle.map_calls.specs.Maps.{Puts, Deletes};
ghost use Rattle.map_calls.specs.Views.{GoesOn, Fails, StaysShut, Tries};
ghost use Rattle.stored_map.specs.Stores.{IsKept, Releases, HasOwnLimits, view_of, leaving, Tell};
ghost use Rattle.stored_map.specs.Finding.{FindsMap, FindsNoMap};

use crate::finding::find;
use crate::kept::{Kept, Released};
use crate::{changing, crashing, looking, resting};
use disk_model::Disk;
use map_calls::{Failure, Put, Unopened};
use std::alloc::Global;
use std::marker::Model;

/// What is left of what was kept.
fn released<D: Disk>(kept: Kept<D>) -> Released<D>
    requires kept { IsKept kept }
    ensures released { Releases kept result }
    ensures limits { HasOwnLimits result }
{
    match kept {
        Kept::Idle(store) => Released::Open(store.into_logged()),
        Kept::Looking(store) => Released::Open(store.into_logged()),
        Kept::Stopped(store) => Released::Open(store.into_logged()),
        Kept::Shut(disk) => Released::Shut(disk),
        Kept::Taken => unreachable!(),
    }
}

/// A store that keeps an ordered map from 64-bit keys to 64-bit values, on a disk. Each call is one transaction of its first client, and is
/// committed where it is `Ok`; it asks for a store that is open and of which no call failed.
///
/// [`Failure::Disk`] comes only where the disk's count of faults rose in the call; a power loss may then leave the map of before or
/// the one that was asked for. [`Failure::HistoryFull`] and [`Failure::LogFull`] come exactly where the store is marked so. At each of
/// these and at [`Failure::Memory`] a power loss leaves the map of before.
#[derive(Drop)]
pub struct StoredMap<D: Disk> {
    alloc: Global,
    kept: Kept<D>,
}

/// Contracts see what is kept of the store.
impl<D: Disk> Model for StoredMap<D> {
    ghost use Rattle.stored_map.specs.declared.kept.Kept.{Kept};
    ghost use Rattle.stored_map.specs.Stores.{IsKept};

    ghost Value = { Kept D };

    ghost view = { λ s. s.kept };

    ghost invariant = { λ s. IsKept s.kept };
}

impl<D: Disk> StoredMap<D> {
    ghost use Rattle.stored_map.specs.declared.kept.Kept.{Kept as KeptView};

    /// The store that the disk holds, with its map. Where it isn't opened, or keeps no map, the disk is handed back; where a look at it was
    /// refused for want of memory or of room, its journal.
    pub fn open(alloc: Global, disk: D) -> Result<StoredMap<D>, (Unopened, Released<D>)>
        ensures found { IfOk result (λ s. FindsMap D.content D.may_leave D.moment D.left_since D.faults disk s) }
        ensures goes { IfOk result (λ s. GoesOn (view_of D.faults s) (leaving D.may_leave s)) }
        ensures none { IfErr result (λ e. (k : KeptView D) × FindsNoMap D.content D.may_leave D.moment D.left_since D.faults disk e.0 k × Releases k e.1) }
        ensures limits { IfErr result (λ e. HasOwnLimits e.1) }
    {
        match find(alloc, disk) {
            Ok(kept) => Ok(StoredMap { alloc, kept }),
            Err((unopened, kept)) => Err((unopened, released(kept))),
        }
    }

    /// The journal with its log, or the disk where the store isn't opened. What wasn't committed stays as it is.
    pub fn release(self) -> Released<D>
        ensures released { Releases self result }
        ensures limits { HasOwnLimits result }
    {
        let StoredMap { alloc: _, kept } = self;
        released(kept)
    }

    /// The value of the key.
    pub fn get(&mut self, key: u64) -> Result<Option<u64>, Failure>
        requires running { (view_of D.faults self.old).running ≡ true }
        ensures value { IfOk result (λ value. value ≡ value_of key (view_of D.faults self.old).map.pairs) }
        ensures same { OnOk result ((view_of D.faults self.new).map ≡ (view_of D.faults self.old).map) }
        ensures goes { OnOk result (GoesOn (view_of D.faults self.new) (leaving D.may_leave self.new)) }
        ensures failed { IfErr result (λ f. Fails f (view_of D.faults self.old) (view_of D.faults self.new) (leaving D.may_leave self.new) (λ n. n ≡ (view_of D.faults self.old).map)) }
        ensures later { (view_of D.faults self.old).faults ≤ (view_of D.faults self.new).faults }
    {
        looking::get(&mut self.kept, key)
    }

    /// All pairs, ascending by key.
    pub fn list(&mut self, alloc: Global) -> Result<Vec<(u64, u64)>, Failure>
        requires running { (view_of D.faults self.old).running ≡ true }
        ensures pairs { IfOk result (λ pairs. pairs.items ≡ (view_of D.faults self.old).map.pairs) }
        ensures same { OnOk result ((view_of D.faults self.new).map ≡ (view_of D.faults self.old).map) }
        ensures goes { OnOk result (GoesOn (view_of D.faults self.new) (leaving D.may_leave self.new)) }
        ensures failed { IfErr result (λ f. Fails f (view_of D.faults self.old) (view_of D.faults self.new) (leaving D.may_leave self.new) (λ n. n ≡ (view_of D.faults self.old).map)) }
        ensures later { (view_of D.faults self.old).faults ≤ (view_of D.faults self.new).faults }
    {
        looking::list(alloc, &mut self.kept)
    }

    /// How many keys have a value.
    pub fn keys(&mut self) -> Result<u64, Failure>
        requires running { (view_of D.faults self.old).running ≡ true }
        ensures keys { IfOk result (λ keys. keys ≡ length (view_of D.faults self.old).map.pairs) }
        ensures same { OnOk result ((view_of D.faults self.new).map ≡ (view_of D.faults self.old).map) }
        ensures room { OnOk result ((view_of D.faults self.new).room ≡ (view_of D.faults self.old).room) }
        ensures goes { OnOk result (GoesOn (view_of D.faults self.new) (leaving D.may_leave self.new)) }
        ensures failed { IfErr result (λ f. Fails f (view_of D.faults self.old) (view_of D.faults self.new) (leaving D.may_leave self.new) (λ n. n ≡ (view_of D.faults self.old).map)) }
        ensures later { (view_of D.faults self.old).faults ≤ (view_of D.faults self.new).faults }
    {
        looking::count(self.alloc, &mut self.kept)
    }

    /// Gives the key this value. Where fewer ids are free than that needs, the map stays as it is; a collection may free some.
    pub fn put(&mut self, key: u64, value: u64) -> Result<Put, Failure>
        requires running { (view_of D.faults self.old).running ≡ true }
        ensures put { IfOk result (λ put. Tries key value put (view_of D.faults self.old) (view_of D.faults self.new)) }
        ensures goes { OnOk result (GoesOn (view_of D.faults self.new) (leaving D.may_leave self.new)) }
        ensures failed { IfErr result (λ f. Fails f (view_of D.faults self.old) (view_of D.faults self.new) (leaving D.may_leave self.new) (Puts key value (view_of D.faults self.old).map)) }
        ensures later { (view_of D.faults self.old).faults ≤ (view_of D.faults self.new).faults }
    {
        changing::put(&mut self.kept, key, value)
    }

    /// Takes the key's value away, and tells it.
    pub fn remove(&mut self, key: u64) -> Result<Option<u64>, Failure>
        requires running { (view_of D.faults self.old).running ≡ true }
        ensures value { IfOk result (λ value. value ≡ value_of key (view_of D.faults self.old).map.pairs) }
        ensures removed { OnOk result (Deletes key (view_of D.faults self.old).map (view_of D.faults self.new).map) }
        ensures goes { OnOk result (GoesOn (view_of D.faults self.new) (leaving D.may_leave self.new)) }
        ensures failed { IfErr result (λ f. Fails f (view_of D.faults self.old) (view_of D.faults self.new) (leaving D.may_leave self.new) (Deletes key (view_of D.faults self.old).map)) }
        ensures later { (view_of D.faults self.old).faults ≤ (view_of D.faults self.new).faults }
    {
        changing::remove(&mut self.kept, key)
    }

    /// Collects until there is nothing to do: after it all ids are free that can be.
    pub fn collect(&mut self) -> Result<(), Failure>
        requires running { (view_of D.faults self.old).running ≡ true }
        ensures same { OnOk result ((view_of D.faults self.new).map ≡ (view_of D.faults self.old).map) }
        ensures room { OnOk result ((view_of D.faults self.new).room ≡ (view_of D.faults self.new).map.free) }
        ensures goes { OnOk result (GoesOn (view_of D.faults self.new) (leaving D.may_leave self.new)) }
        ensures failed { IfErr result (λ f. Fails f (view_of D.faults self.old) (view_of D.faults self.new) (leaving D.may_leave self.new) (λ n. n ≡ (view_of D.faults self.old).map)) }
        ensures later { (view_of D.faults self.old).faults ≤ (view_of D.faults self.new).faults }
    {
        resting::collect_all(&mut self.kept)
    }

    /// Loses power, with this pick of what it leaves of the disk, and opens the store again. Tells how many keys have a value.
    /// Where it is told what the disk reads, the map is as before. After an [`Unopened`] the store takes no calls.
    pub fn lose_power(&mut self, pick: u32) -> Result<u64, Unopened>
        requires running { (view_of D.faults self.old).running ≡ true }
        ensures keys { IfOk result (λ keys. keys ≡ length (view_of D.faults self.new).map.pairs) }
        ensures same { OnOk result (Tell D.content → (view_of D.faults self.new).map ≡ (view_of D.faults self.old).map) }
        ensures goes { OnOk result (GoesOn (view_of D.faults self.new) (leaving D.may_leave self.new)) }
        ensures shut { IfErr result (λ u. StaysShut (Tell D.content) u (view_of D.faults self.old) (view_of D.faults self.new) (leaving D.may_leave self.new)) }
        ensures later { (view_of D.faults self.old).faults ≤ (view_of D.faults self.new).faults }
    {
        crashing::lose_power(self.alloc, &mut self.kept, pick)
    }
}
