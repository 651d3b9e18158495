//! A key that is taken away.
ghost use Rattle.std.specs.Prelude.{◌≡◌, [], IfOk, IfErr, OnOk, List, ℕ, Some, length};
ghost use Rattle.plain_model.specs.Graphs.{root};
ghost use Rattle.object_map.specs.Clients.{seen, no_id, Asks, Fails, Falls};
ghost use Rattle.object_map.specs.Changes.{KeepsOthers, Loses, ChangesOne, RemovesBy, ids_held};
ghost use Rattle.plain_map.specs.Pairs.{value_of, without_key};
ghost use Rattle.object_map.specs.Maps.{IsMap};
ghost use Rattle.object_map.specs.Seen.{held};
ghost use Rattle.object_map.specs.Seeking.{HasTree, IsSought};
ghost use Rattle.plain_model.specs.declared.calls.Call.{Call};

use crate::client::Client;
use crate::getting::ObjectMap;
use crate::refusal::MapRefusal;
use crate::{CELL_SLOT, MAP_SLOT};
use disk_model::Disk;

/// Where the leaf is to which a key's bits lead, and its key.
#[derive(Clone, Copy, Debug)]
struct Sought {
    found: u64,
    /// Whether it hangs under the root's slot, as the only leaf.
    only: bool,
    /// Else it hangs under this slot of the object in register 2, ...
    side: u8,
    /// ... and that object under this slot of the object in this register.
    register: u8,
    slot: u8,
}

/// Goes from the root's slot to the leaf to which the key's bits lead. Register 1 holds it then.
fn seek<D: Disk>(client: &mut Client<D>, key: u64) -> Result<Sought, MapRefusal>
    requires rooted { held (seen client.old) 0 ≡ Some root }
    requires tree { HasTree 13 (seen client.old) }
    ensures leaf { IfOk result (λ s. IsSought key s.found s.side s.register s.slot s.only (seen client.old) (seen client.new)) }
    ensures asks { OnOk result (Asks 323 [] client.old client.new) }
    ensures refused { IfErr result (λ why. Falls 0 why client.old client.new) }
{
    let mut only = true;
    let mut side = 0;
    let mut register = 0;
    let mut slot = MAP_SLOT;
    let mut last = 64;
    client.read(0, MAP_SLOT, 1)?;
    'down: loop {
        let payload = client.get_pay(1)?;
        if client.read(1, CELL_SLOT, 4)? != 0 {
            return Ok(Sought {
                found: payload,
                only,
                side,
                register,
                slot,
            });
        }
        let next = ((key >> payload) & 1) as u8;
        last = payload;
        if only {
            client.read(0, MAP_SLOT, 2)?;
            only = false;
        } else {
            client.read(register, slot, 3)?;
            client.read(2, side, 2)?;
            register = 3;
            slot = side;
        }
        client.read(2, next, 1)?;
        side = next;
    }
}

impl ObjectMap {
    /// Takes the key away, and answers the value that it had. Objects outside the map stay as they are.
    ///
    /// [`MapRefusal::Store`] and [`MapRefusal::Memory`] come only where the store refused the last call for want of room or memory.
    pub fn remove<D: Disk>(
        &mut self,
        client: &mut Client<D>,
        key: u64,
    ) -> Result<Option<u64>, MapRefusal>
        requires rooted { held (seen client.old) 0 ≡ Some root }
        requires map { (pairs : List (ℕ × ℕ)) × IsMap 13 (seen client.old).graph pairs }
        ensures before { IfOk result (λ before. (pairs : List (ℕ × ℕ)) → IsMap 13 (seen client.old).graph pairs → before ≡ value_of key pairs) }
        ensures map { OnOk result ((pairs : List (ℕ × ℕ)) → IsMap 13 (seen client.old).graph pairs → IsMap 13 (seen client.new).graph (without_key key pairs)) }
        ensures outside { OnOk result (KeepsOthers 13 (seen client.old) (seen client.new)) }
        ensures loses { OnOk result ((pairs : List (ℕ × ℕ)) → IsMap 13 (seen client.old).graph pairs → (ids : List ℕ) × ((length ids ≡ ids_held key pairs) × Loses 13 ids (seen client.old) (seen client.new))) }
        ensures once { OnOk result (ChangesOne (seen client.old) (seen client.new)) }
        ensures asks { OnOk result ((pairs : List (ℕ × ℕ)) → IsMap 13 (seen client.old).graph pairs → (changes : List Call) × (RemovesBy key pairs changes × Asks 330 changes client.old client.new)) }
        ensures rooted { held (seen client.new) 0 ≡ Some root }
        ensures never_full { IfErr result (λ why. why ≡ no_id → ⊥) }
        ensures refused { IfErr result (λ why. Fails why client.old client.new) }
    {
        if client.read(0, MAP_SLOT, 1)? == 0 {
            return Ok(None);
        }
        let sought = seek(client, key)?;
        if sought.found != key {
            return Ok(None);
        }
        client.read(1, CELL_SLOT, 4)?;
        let before = client.get_pay(4)?;
        if sought.only {
            client.store(0, MAP_SLOT, None)?;
            return Ok(Some(before));
        }
        client.read(2, 1 - sought.side, 1)?;
        client.store(sought.register, sought.slot, Some(1))?;
        Ok(Some(before))
    }
}
