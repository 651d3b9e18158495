//! All pairs of the map.
ghost use Rattle.std.specs.Prelude.{◌≡◌, None, Some, IfOk, IfErr, OnOk};
ghost use Rattle.plain_model.specs.Graphs.{root};
ghost use Rattle.object_map.specs.Seen.{held};
ghost use Rattle.object_map.specs.Clients.{seen};
ghost use Rattle.stored_map.specs.Graphs.{KeepsMap, pairs_in};
ghost use Rattle.stored_map.specs.Stores.{IsUnmarked};
ghost use Rattle.stored_map.specs.Steps.{OnlyLooks, Refuses};

use crate::failing::failure_in;
use disk_model::Disk;
use map_calls::Failure;
use object_map::{Client, ObjectMap, map_is_one};
use plain_map::pairs_between_are_next_pairs;
use std::alloc::Global;

/// All pairs of the map that the client sees, ascending by key.
pub(crate) fn all_pairs<D: Disk>(
    alloc: Global,
    client: &mut Client<D>,
) -> Result<Vec<(u64, u64)>, Failure>
    requires rooted { held (seen client.old) 0 ≡ Some root }
    requires map { KeepsMap (seen client.old).graph }
    requires running { client.old.store.failed ≡ None }
    requires unmarked { IsUnmarked client.old.store }
    ensures pairs { IfOk result (λ pairs. pairs.items ≡ pairs_in (seen client.old).graph) }
    ensures looks { OnOk result (OnlyLooks client.old client.new) }
    ensures refused { IfErr result (λ f. Refuses f client.old.store client.new.store) }
{
    // The keys ascend, and the pairs from a key on are the next pairs: these calls hand the laws out.
    map_is_one();
    pairs_between_are_next_pairs();
    let map = ObjectMap::new();
    let mut pairs = Vec::new(alloc);
    let mut key: u64 = 0;
    'pairs: loop {
        let pair = match map.next(client, key) {
            Ok(None) => return Ok(pairs),
            Ok(Some(pair)) => pair,
            Err(refusal) => return Err(failure_in(refusal)),
        };
        match pairs.push(pair) {
            Ok(()) => {}
            Err(_) => return Err(Failure::Memory),
        }
        match pair.0.checked_add(1) {
            Some(next) => key = next,
            None => return Ok(pairs),
        }
    }
}
