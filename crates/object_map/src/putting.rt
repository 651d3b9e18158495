//! A key that gets a value.
ghost use Rattle.std.specs.Prelude.{◌≡◌, ◌<◌, IfOk, IfErr, OnOk, List, ℕ, Some, length};
ghost use Rattle.plain_model.specs.Graphs.{root};
ghost use Rattle.object_map.specs.Clients.{seen, state_of, no_id, free_ids, Asks, Fails};
ghost use Rattle.object_map.specs.Changes.{KeepsOthers, Gains, PutsBy, ids_needed};
ghost use Rattle.plain_map.specs.Pairs.{value_of, with_pair};
ghost use Rattle.object_map.specs.Maps.{IsMap};
ghost use Rattle.object_map.specs.Seen.{held};
ghost use Rattle.plain_model.specs.declared.calls.Call.{Call};

use crate::client::Client;
use crate::descending::descend;
use crate::getting::ObjectMap;
use crate::making::{make_fork, make_leaf};
use crate::parting::part;
use crate::refusal::MapRefusal;
use crate::{CELL_SLOT, MAP_SLOT};
use disk_model::Disk;

impl ObjectMap {
    /// Gives the key the value, and answers the one that it had. Objects outside the map stay as they are.
    ///
    /// [`MapRefusal::Store`] and [`MapRefusal::Memory`] come only where the store refused the last call: for want of room or memory, or
    /// because an object was to be made and every id is stored. Some writes may stand then, so the caller aborts.
    pub fn put<D: Disk>(
        &mut self,
        client: &mut Client<D>,
        key: u64,
        value: u64,
    ) -> Result<Option<u64>, MapRefusal>
        requires rooted { held (seen client.old) 0 ≡ Some root }
        requires map { (pairs : List (ℕ × ℕ)) × IsMap 13 (seen client.old).graph pairs }
        ensures before { IfOk result (λ before. (pairs : List (ℕ × ℕ)) → IsMap 13 (seen client.old).graph pairs → before ≡ value_of key pairs) }
        ensures map { OnOk result ((pairs : List (ℕ × ℕ)) → IsMap 13 (seen client.old).graph pairs → IsMap 13 (seen client.new).graph (with_pair key value pairs)) }
        ensures outside { OnOk result (KeepsOthers 13 (seen client.old) (seen client.new)) }
        ensures gains { OnOk result ((pairs : List (ℕ × ℕ)) → IsMap 13 (seen client.old).graph pairs → (ids : List ℕ) × ((length ids ≡ ids_needed key pairs) × Gains 13 ids (seen client.old) (seen client.new))) }
        ensures asks { OnOk result ((pairs : List (ℕ × ℕ)) → IsMap 13 (seen client.old).graph pairs → (changes : List Call) × (PutsBy key value pairs changes × Asks 528 changes client.old client.new)) }
        ensures rooted { held (seen client.new) 0 ≡ Some root }
        ensures full { IfErr result (λ why. why ≡ no_id → (pairs : List (ℕ × ℕ)) → IsMap 13 (seen client.old).graph pairs → free_ids (state_of client.old) < ids_needed key pairs) }
        ensures refused { IfErr result (λ why. Fails why client.old client.new) }
    {
        client.know_slots();
        if client.read(0, MAP_SLOT, 1)? == 0 {
            make_leaf(client, key, value)?;
            client.store(0, MAP_SLOT, Some(3))?;
            return Ok(None);
        }
        let found = descend(client, key)?;
        if found == key {
            client.read(1, CELL_SLOT, 1)?;
            let before = client.get_pay(1)?;
            client.set_pay(1, value)?;
            return Ok(Some(before));
        }
        let parting = part(client, key, found)?;
        if key < found {
            make_fork(client, key, value, parting.bit, 0)?;
        } else {
            make_fork(client, key, value, parting.bit, 1)?;
        }
        client.store(parting.register, parting.slot, Some(5))?;
        Ok(None)
    }
}
