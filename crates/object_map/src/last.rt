//! The greatest key of the map.
ghost use Rattle.std.specs.Prelude.{◌≡◌, [], IfOk, IfErr, OnOk, List, ℕ, Some, None};
ghost use Rattle.std.specs.List.{last_or};
ghost use Rattle.plain_model.specs.Graphs.{root};
ghost use Rattle.object_map.specs.Clients.{seen, no_id, Asks, Fails};
ghost use Rattle.object_map.specs.Maps.{IsMap};
ghost use Rattle.object_map.specs.Seen.{held};

use crate::client::Client;
use crate::descending::descend;
use crate::getting::ObjectMap;
use crate::refusal::MapRefusal;
use crate::{CELL_SLOT, MAP_SLOT};
use disk_model::Disk;

impl ObjectMap {
    /// The pair with the greatest key, where there is one. The objects stay as they are.
    ///
    /// [`MapRefusal::Store`] and [`MapRefusal::Memory`] come only where the store refused the last call for want of room or memory.
    pub fn last<D: Disk>(&self, client: &mut Client<D>) -> Result<Option<(u64, u64)>, MapRefusal>
        requires rooted { held (seen client.old) 0 ≡ Some root }
        requires map { (pairs : List (ℕ × ℕ)) × IsMap 13 (seen client.old).graph pairs }
        ensures pair { IfOk result (λ pair. (pairs : List (ℕ × ℕ)) → IsMap 13 (seen client.old).graph pairs → pair ≡ last_or None pairs) }
        ensures kept { OnOk result ((seen client.new).graph ≡ (seen client.old).graph) }
        ensures asks { OnOk result (Asks 198 [] client.old client.new) }
        ensures rooted { held (seen client.new) 0 ≡ Some root }
        ensures never_full { IfErr result (λ why. why ≡ no_id → ⊥) }
        ensures refused { IfErr result (λ why. Fails why client.old client.new) }
    {
        if client.read(0, MAP_SLOT, 1)? == 0 {
            return Ok(None);
        }
        // Each bit of the greatest number leads to the high side.
        let key = descend(client, u64::MAX)?;
        client.read(1, CELL_SLOT, 1)?;
        let value = client.get_pay(1)?;
        Ok(Some((key, value)))
    }
}
