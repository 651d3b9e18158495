//! Keys that can be told below an object, which may be one of a map or not.
ghost use Rattle.std.specs.Prelude.{◌≡◌, ◌≢◌, ◌<◌, ◌≤◌, ◌⊎◌, ℕ, Some, IfOk, IfErr, OnOk};
ghost use Rattle.std.specs.Int.{bit_at};
ghost use Rattle.plain_model.specs.Graphs.{root};
ghost use Rattle.object_map.specs.Clients.{seen};
ghost use Rattle.object_map.specs.Maps.{slot_of};
ghost use Rattle.object_map.specs.Seen.{at, held};
ghost use Rattle.object_map.specs.Telling.{IsWithin, IsEnd, AreTold, Tells};
ghost use Rattle.object_map.specs.Walking.{Looks, Refuses, IsReached};

use crate::CELL_SLOT;
use crate::client::Client;
use crate::refusal::MapRefusal;
use crate::walking::{meet, reach};
use disk_model::Disk;
use std::collections::BTreeSet;

/// The least and the greatest of some keys.
#[derive(Clone, Copy, Debug)]
pub(crate) struct Span {
    pub(crate) low: u64,
    pub(crate) high: u64,
}

/// The span with one key more.
fn widen(span: Option<Span>, key: u64) -> Span
    ensures here { IsWithin (Some result) key }
    ensures kept { (k : ℕ) → IsWithin span k → IsWithin (Some result) k }
    ensures ends { (k : ℕ) → IsEnd (Some result) k → IsEnd span k ⊎ (k ≡ key) }
{
    let Some(old) = span else {
        return Span {
            low: key,
            high: key,
        };
    };
    Span {
        low: old.low.min(key),
        high: old.high.max(key),
    }
}

/// Adds the keys that can be told below object `id` to the span. The guide's bits lead to it from the root's slot, where it isn't null.
/// Inner objects that were met are passed over, and those that it meets join them.
pub(crate) fn tell<D: Disk>(
    client: &mut Client<D>,
    told: &mut BTreeSet<u32>,
    span: Option<Span>,
    id: u32,
    guide: u64,
    below: u64,
) -> Result<Option<Span>, MapRefusal>
    requires rooted { held (seen client.old) 0 ≡ Some root }
    requires start { slot_of (at (seen client.old) root) 13 ≢ 0 }
    requires few { below ≤ 64 }
    requires clear { (b : ℕ) → b < below → bit_at guide b ≡ 0 }
    requires way { id ≢ 0 → IsReached (at (seen client.old)) guide below (slot_of (at (seen client.old) root) 13) id }
    requires told { AreTold (at (seen client.old)) below told.old.keys span }
    ensures tells { IfOk result (λ after. Tells (at (seen client.old)) below id told.old.keys told.new.keys span after) }
    ensures looks { OnOk result (Looks client.old client.new) }
    ensures refused { IfErr result (λ why. Refuses why ⊥ client.old client.new) }
{
    if id == 0 {
        return Ok(span);
    }
    reach(client, guide, id)?;
    let payload = client.get_pay(1)?;
    let cell = client.read(1, CELL_SLOT, 4)?;
    if cell != 0 {
        return Ok(Some(widen(span, payload)));
    }
    if payload >= below {
        return Ok(span);
    }
    if !meet(told, id)? {
        return Ok(span);
    }
    let low = client.read(1, 0, 4)?;
    let high = client.read(1, 1, 4)?;
    let wider = tell(client, told, span, low, guide, payload)?;
    let turned = guide | (1 << payload);
    let widest = tell(client, told, wider, high, turned, payload)?;
    Ok(widest)
}
