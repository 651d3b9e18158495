//! What a key has in the map.
ghost use Rattle.std.specs.Prelude.{◌≡◌, [], IfOk, IfErr, OnOk, List, ℕ, Some};
ghost use Rattle.plain_model.specs.Graphs.{root};
ghost use Rattle.object_map.specs.Clients.{seen, no_id, Asks, Fails};
ghost use Rattle.plain_map.specs.Pairs.{value_of, next_pair};
ghost use Rattle.object_map.specs.Maps.{IsMap};
ghost use Rattle.object_map.specs.Seen.{held};

use crate::client::Client;
use crate::descending::descend;
use crate::parting::{first_pair, part};
use crate::refusal::MapRefusal;
use crate::{CELL_SLOT, MAP_SLOT};
use disk_model::Disk;

/// An ordered map from keys to values, in the objects of a store.
#[derive(Debug, Drop)]
pub struct ObjectMap {}

impl ObjectMap {
    /// The map of a store whose root keeps one. Nothing is read: each call asks that the graph which its client sees keeps a map.
    pub fn new() -> ObjectMap {
        ObjectMap {}
    }

    /// The value of the key, where it has one. The objects stay as they are.
    ///
    /// [`MapRefusal::Store`] and [`MapRefusal::Memory`] come only where the store refused the last call for want of room or memory.
    pub fn get<D: Disk>(&self, client: &mut Client<D>, key: u64) -> Result<Option<u64>, MapRefusal>
        requires rooted { held (seen client.old) 0 ≡ Some root }
        requires map { (pairs : List (ℕ × ℕ)) × IsMap 13 (seen client.old).graph pairs }
        ensures value { IfOk result (λ value. (pairs : List (ℕ × ℕ)) → IsMap 13 (seen client.old).graph pairs → value ≡ value_of key pairs) }
        ensures kept { OnOk result ((seen client.new).graph ≡ (seen client.old).graph) }
        ensures asks { OnOk result (Asks 198 [] client.old client.new) }
        ensures rooted { held (seen client.new) 0 ≡ Some root }
        ensures never_full { IfErr result (λ why. why ≡ no_id → ⊥) }
        ensures refused { IfErr result (λ why. Fails why client.old client.new) }
    {
        if client.read(0, MAP_SLOT, 1)? == 0 {
            return Ok(None);
        }
        if descend(client, key)? != key {
            return Ok(None);
        }
        client.read(1, CELL_SLOT, 1)?;
        Ok(Some(client.get_pay(1)?))
    }

    /// The pair with the least key that isn't below the given one, where there is one. The objects stay as they are.
    ///
    /// [`MapRefusal::Store`] and [`MapRefusal::Memory`] come only where the store refused the last call for want of room or memory.
    pub fn next<D: Disk>(
        &self,
        client: &mut Client<D>,
        key: u64,
    ) -> Result<Option<(u64, u64)>, MapRefusal>
        requires rooted { held (seen client.old) 0 ≡ Some root }
        requires map { (pairs : List (ℕ × ℕ)) × IsMap 13 (seen client.old).graph pairs }
        ensures pair { IfOk result (λ pair. (pairs : List (ℕ × ℕ)) → IsMap 13 (seen client.old).graph pairs → pair ≡ next_pair key pairs) }
        ensures kept { OnOk result ((seen client.new).graph ≡ (seen client.old).graph) }
        ensures asks { OnOk result (Asks 726 [] client.old client.new) }
        ensures rooted { held (seen client.new) 0 ≡ Some root }
        ensures never_full { IfErr result (λ why. why ≡ no_id → ⊥) }
        ensures refused { IfErr result (λ why. Fails why client.old client.new) }
    {
        if client.read(0, MAP_SLOT, 1)? == 0 {
            return Ok(None);
        }
        let found = descend(client, key)?;
        if found == key {
            client.read(1, CELL_SLOT, 1)?;
            let value = client.get_pay(1)?;
            return Ok(Some((key, value)));
        }
        let parting = part(client, key, found)?;
        if key < found {
            let pair = first_pair(client, 1)?;
            return Ok(Some(pair));
        }
        if !parting.right {
            return Ok(None);
        }
        let pair = first_pair(client, 3)?;
        Ok(Some(pair))
    }
}
