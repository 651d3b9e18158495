//! A map that a store keeps is found, by looks at all of its objects.
ghost use Rattle.std.specs.Prelude.{◌≡◌, ◌≢◌, ◌<◌, ◌≤◌, ◌+◌, ◌*◌, [], length, List, ℕ, Some, IfOk, IfErr, OnOk};
ghost use Rattle.std.specs.Int.{bit_at};
ghost use Rattle.plain_model.specs.Graphs.{root};
ghost use Rattle.object_map.specs.Broken.{IsFirst, IsFirstBroken, IsMet};
ghost use Rattle.object_map.specs.Clients.{seen, no_id, Asks};
ghost use Rattle.object_map.specs.Maps.{AreObjects, IsMap, slot_of};
ghost use Rattle.object_map.specs.Seen.{at, held};
ghost use Rattle.object_map.specs.Trees.{Tree, id_of, forks_in};
ghost use Rattle.object_map.specs.Walking.{Looks, Refuses, IsReached, Grown, NoTree};

use crate::blaming::blame;
use crate::client::Client;
use crate::fork::fork_at;
use crate::getting::ObjectMap;
use crate::refusal::MapRefusal;
use crate::walking::{do_part, meet_leaf, reach, sides};
use crate::{CELL_SLOT, MAP_SLOT};
use disk_model::Disk;
use std::alloc::Global;
use std::collections::BTreeSet;

/// Looks at all of the tree in register 1, whose first object has this id and whose numbers are below the bit. The guide's bits lead to it
/// from the root's slot. Answers a key of the tree; its cells join those that were met.
fn grow<D: Disk>(
    alloc: Global,
    client: &mut Client<D>,
    cells: &mut BTreeSet<u32>,
    id: u32,
    guide: u64,
    below: u64,
) -> Result<u64, MapRefusal>
    requires rooted { held (seen client.old) 0 ≡ Some root }
    requires start { slot_of (at (seen client.old) root) 13 ≢ 0 }
    requires here { held (seen client.old) 1 ≡ Some id }
    requires few { below ≤ 64 }
    requires clear { (b : ℕ) → b < below → bit_at guide b ≡ 0 }
    requires way { IsReached (at (seen client.old)) guide below (slot_of (at (seen client.old) root) 13) id }
    ensures grown { IfOk result (λ key. Grown (at (seen client.old)) id below key cells.old.keys cells.new.keys) }
    ensures looks { OnOk result (Looks client.old client.new) }
    ensures asks { OnOk result ((t : Tree) → id_of t ≡ id → AreObjects (at (seen client.old)) t → Asks (30 + 178 * forks_in t) [] client.old client.new) }
    ensures refused { IfErr result (λ why. Refuses why (NoTree (at (seen client.old)) id below cells.old.keys) client.old client.new) }
    ensures first { IfErr result (λ why. (d : ℕ) → why ≡ MapRefusal.NotMap d → IsFirst (at (seen client.old)) (IsMet cells.old.keys) below id d) }
{
    let payload = client.get_pay(1)?;
    let cell = client.read(1, CELL_SLOT, 2)?;
    if cell != 0 {
        meet_leaf(client, cells, id, cell)?;
        return Ok(payload);
    }
    if payload >= below {
        return Err(MapRefusal::NotMap { id });
    }
    let looked = sides(client)?;
    let Some(found) = looked else {
        return Err(MapRefusal::NotMap { id });
    };
    let fork = fork_at(id, payload, found, guide);
    client.read(1, 0, 1)?;
    let first = match grow(alloc, client, cells, found.0, guide, payload) {
        Ok(first) => first,
        Err(why) => return Err(blame(alloc, client, fork, why)),
    };
    reach(client, fork.turned, found.1)?;
    let last = match grow(alloc, client, cells, found.1, fork.turned, payload) {
        Ok(last) => last,
        Err(why) => return Err(blame(alloc, client, fork, why)),
    };
    if !do_part(first, last, payload) {
        return Err(MapRefusal::NotMap { id });
    }
    Ok(last)
}

impl ObjectMap {
    /// The map that the store keeps under the root's slot. All of its objects are looked at, and stay as they are.
    ///
    /// [`MapRefusal::NotMap`] comes only where the graph keeps no map there, and names the first object that breaks it.
    /// [`MapRefusal::Memory`] comes where there is no memory for the ids of all values, or where the store refused a call for that.
    /// [`MapRefusal::Store`] comes only where the store refused the last call for want of room.
    pub fn attach<D: Disk>(alloc: Global, client: &mut Client<D>) -> Result<ObjectMap, MapRefusal>
        requires rooted { held (seen client.old) 0 ≡ Some root }
        ensures map { OnOk result ((pairs : List (ℕ × ℕ)) × IsMap 13 (seen client.old).graph pairs) }
        ensures looks { OnOk result (Looks client.old client.new) }
        ensures asks { OnOk result ((pairs : List (ℕ × ℕ)) → IsMap 13 (seen client.old).graph pairs → Asks (1 + 178 * length pairs) [] client.old client.new) }
        ensures rooted { held (seen client.new) 0 ≡ Some root }
        ensures never_full { IfErr result (λ why. why ≡ no_id → ⊥) }
        ensures first { IfErr result (λ why. (id : ℕ) → why ≡ MapRefusal.NotMap id → IsFirstBroken 13 (at (seen client.old)) id) }
        ensures refused { IfErr result (λ why. Refuses why ((pairs : List (ℕ × ℕ)) → IsMap 13 (seen client.old).graph pairs → ⊥) client.old client.new) }
    {
        let id = client.read(0, MAP_SLOT, 1)?;
        if id == 0 {
            return Ok(ObjectMap {});
        }
        let mut cells = BTreeSet::new(alloc);
        grow(alloc, client, &mut cells, id, 0, 64)?;
        Ok(ObjectMap {})
    }
}
