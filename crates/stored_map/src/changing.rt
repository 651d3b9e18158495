//! Changes of the map.
ghost use Rattle.std.specs.Prelude.{◌≡◌, true};
ghost use Rattle.stored_map.specs.Stores.{IsKept, is_running, view_of, leaving};
ghost use Rattle.stored_map.specs.Calls.{PutsPair, RemovesKey};

use crate::failing::{failure_in, is_full};
use crate::kept::Kept;
use crate::transacting::{abort, begin, commit, stop};
use disk_model::Disk;
use map_calls::{Failure, Put};
use object_map::ObjectMap;

/// Gives the key this value, where enough ids are free.
pub(crate) fn put<D: Disk>(kept: &mut Kept<D>, key: u64, value: u64) -> Result<Put, Failure>
    requires kept { IsKept kept.old }
    requires running { is_running kept.old ≡ true }
    ensures puts { PutsPair result key value (view_of D.faults kept.old) (view_of D.faults kept.new) (leaving D.may_leave kept.new) }
    ensures kept { IsKept kept.new }
{
    let mut client = match begin(kept) {
        Ok(client) => client,
        Err(failure) => return Err(failure),
    };
    let refusal = match ObjectMap::new().put(&mut client, key, value) {
        Ok(old) => {
            return match commit(kept, client) {
                Ok(()) => Ok(Put::Stored { old }),
                Err(failure) => Err(failure),
            };
        }
        Err(refusal) => refusal,
    };
    if is_full(&refusal) {
        abort(kept, client);
        return Ok(Put::NoRoom);
    }
    stop(kept, client);
    Err(failure_in(refusal))
}

/// Takes the key's value away, and tells it.
pub(crate) fn remove<D: Disk>(kept: &mut Kept<D>, key: u64) -> Result<Option<u64>, Failure>
    requires kept { IsKept kept.old }
    requires running { is_running kept.old ≡ true }
    ensures removes { RemovesKey result key (view_of D.faults kept.old) (view_of D.faults kept.new) (leaving D.may_leave kept.new) }
    ensures kept { IsKept kept.new }
{
    let mut client = match begin(kept) {
        Ok(client) => client,
        Err(failure) => return Err(failure),
    };
    match ObjectMap::new().remove(&mut client, key) {
        Ok(value) => match commit(kept, client) {
            Ok(()) => Ok(value),
            Err(failure) => Err(failure),
        },
        Err(refusal) => {
            stop(kept, client);
            Err(failure_in(refusal))
        }
    }
}
