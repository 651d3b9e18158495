//! A pair is put, after a collection where ids are short.
ghost use Rattle.std.specs.Prelude.{◌≡◌, ◌≤◌, true, IfOk, IfErr, OnOk};
ghost use Rattle.map_calls.specs.Maps.{Puts};
ghost use Rattle.map_calls.specs.Views.{GoesOn, Fails, Places};
ghost use Rattle.stored_map.specs.Stores.{view_of, leaving};

use disk_model::Disk;
use map_calls::{Failure, Put};
use stored_map::StoredMap;

/// Collects, and then gives the key this value, where room is left then.
fn place_after_collection<D: Disk>(
    store: &mut StoredMap<D>,
    key: u64,
    value: u64,
) -> Result<Put, Failure>
    requires running { (view_of D.faults store.old).running ≡ true }
    ensures placed { IfOk result (λ put. Places key value put (view_of D.faults store.old).map (view_of D.faults store.new).map) }
    ensures goes { OnOk result (GoesOn (view_of D.faults store.new) (leaving D.may_leave store.new)) }
    ensures failed { IfErr result (λ f. Fails f (view_of D.faults store.old) (view_of D.faults store.new) (leaving D.may_leave store.new) (Puts key value (view_of D.faults store.old).map)) }
    ensures later { (view_of D.faults store.old).faults ≤ (view_of D.faults store.new).faults }
{
    match store.collect() {
        Ok(()) => store.put(key, value),
        Err(failure) => Err(failure),
    }
}

/// Gives the key this value. Where no room is left it collects, and tries once more: so there is none only where fewer ids can be
/// free than the pair needs.
pub(crate) fn place<D: Disk>(store: &mut StoredMap<D>, key: u64, value: u64) -> Result<Put, Failure>
    requires running { (view_of D.faults store.old).running ≡ true }
    ensures placed { IfOk result (λ put. Places key value put (view_of D.faults store.old).map (view_of D.faults store.new).map) }
    ensures goes { OnOk result (GoesOn (view_of D.faults store.new) (leaving D.may_leave store.new)) }
    ensures failed { IfErr result (λ f. Fails f (view_of D.faults store.old) (view_of D.faults store.new) (leaving D.may_leave store.new) (Puts key value (view_of D.faults store.old).map)) }
    ensures later { (view_of D.faults store.old).faults ≤ (view_of D.faults store.new).faults }
{
    match store.put(key, value) {
        Ok(Put::Stored { old }) => Ok(Put::Stored { old }),
        Ok(Put::NoRoom) => place_after_collection(store, key, value),
        Err(failure) => Err(failure),
    }
}
