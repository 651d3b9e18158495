//! Looks at the map.
ghost use Rattle.std.specs.Prelude.{◌≡◌, true, length, OnOk};
ghost use Rattle.plain_map.specs.Pairs.{value_of};
ghost use Rattle.stored_map.specs.Stores.{IsKept, is_running, view_of, leaving};
ghost use Rattle.stored_map.specs.Calls.{Looks};

use crate::failing::failure_in;
use crate::kept::Kept;
use crate::knowing::know_left;
use crate::listing::all_pairs;
use crate::transacting::{begin, commit, stop};
use disk_model::Disk;
use map_calls::Failure;
use object_map::ObjectMap;
use std::alloc::Global;

/// The value of the key.
pub(crate) fn get<D: Disk>(kept: &mut Kept<D>, key: u64) -> Result<Option<u64>, Failure>
    requires kept { IsKept kept.old }
    requires running { is_running kept.old ≡ true }
    ensures looks { Looks result (λ value. value ≡ value_of key (view_of D.faults kept.old).map.pairs) (view_of D.faults kept.old) (view_of D.faults kept.new) (leaving D.may_leave kept.new) }
    ensures kept { IsKept kept.new }
{
    let mut client = match begin(kept) {
        Ok(client) => client,
        Err(failure) => return Err(failure),
    };
    match ObjectMap::new().get(&mut client, key) {
        Ok(value) => match commit(kept, client) {
            Ok(()) => Ok(value),
            Err(failure) => Err(failure),
        },
        Err(refusal) => {
            stop(kept, client);
            Err(failure_in(refusal))
        }
    }
}

/// All pairs, ascending by key.
pub(crate) fn list<D: Disk>(alloc: Global, kept: &mut Kept<D>) -> Result<Vec<(u64, u64)>, Failure>
    requires kept { IsKept kept.old }
    requires running { is_running kept.old ≡ true }
    ensures looks { Looks result (λ pairs. pairs.items ≡ (view_of D.faults kept.old).map.pairs) (view_of D.faults kept.old) (view_of D.faults kept.new) (leaving D.may_leave kept.new) }
    ensures kept { IsKept kept.new }
{
    let mut client = match begin(kept) {
        Ok(client) => client,
        Err(failure) => return Err(failure),
    };
    match all_pairs(alloc, &mut client) {
        Ok(pairs) => match commit(kept, client) {
            Ok(()) => Ok(pairs),
            Err(failure) => Err(failure),
        },
        Err(failure) => {
            stop(kept, client);
            Err(failure)
        }
    }
}

/// How many keys have a value. The client's transaction goes on, since it may be that nothing is to be written any more.
pub(crate) fn count<D: Disk>(alloc: Global, kept: &mut Kept<D>) -> Result<u64, Failure>
    requires kept { IsKept kept.old }
    requires running { is_running kept.old ≡ true }
    ensures looks { Looks result (λ keys. keys ≡ length (view_of D.faults kept.old).map.pairs) (view_of D.faults kept.old) (view_of D.faults kept.new) (leaving D.may_leave kept.new) }
    ensures room { OnOk result ((view_of D.faults kept.new).room ≡ (view_of D.faults kept.old).room) }
    ensures kept { IsKept kept.new }
{
    let mut client = match begin(kept) {
        Ok(client) => client,
        Err(failure) => return Err(failure),
    };
    match all_pairs(alloc, &mut client) {
        Ok(pairs) => {
            let store = client.into_store();
            know_left(&store);
            *kept = Kept::Looking(store);
            Ok(pairs.len() as u64)
        }
        Err(failure) => {
            stop(kept, client);
            Err(failure)
        }
    }
}
