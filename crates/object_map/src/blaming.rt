//! Which object breaks the map, where something below an inner object does.
ghost use Rattle.std.specs.Prelude.{◌≡◌, ◌≢◌, ◌<◌, ℕ, Some, true, false, IfOk, IfErr, OnOk};
ghost use Rattle.std.specs.Int.{bit_at};
ghost use Rattle.plain_model.specs.Graphs.{root};
ghost use Rattle.object_map.specs.Broken.{HasWrongKey};
ghost use Rattle.object_map.specs.Clients.{seen};
ghost use Rattle.object_map.specs.Forks.{IsFork, IsReady};
ghost use Rattle.object_map.specs.Maps.{slot_of};
ghost use Rattle.object_map.specs.Seen.{at, held};
ghost use Rattle.object_map.specs.Telling.{IsWithin, AreStray, DoSpansPart, AreMixed};
ghost use Rattle.object_map.specs.Trees.{above};
ghost use Rattle.object_map.specs.Walking.{Looks, Refuses, Blames};
ghost use Rattle.object_map.specs.declared.telling.Span.{Span};

use crate::client::Client;
use crate::fork::Fork;
use crate::refusal::MapRefusal;
use crate::telling::{Span, tell};
use disk_model::Disk;
use std::alloc::Global;
use std::collections::BTreeSet;

/// Whether all keys of the span have this digit at the bit, and are the same above it.
fn are_on_side(span: Option<Span>, bit: u64, side: u64) -> bool
    requires number { bit < 64 }
    ensures yes { result ≡ true → (j k : ℕ) → IsWithin span j → IsWithin span k → (bit_at k bit ≡ side) × (above bit j ≡ above bit k) }
    ensures no { result ≡ false → AreStray span bit side }
{
    let Some(keys) = span else {
        return true;
    };
    let low = keys.low >> bit;
    let high = keys.high >> bit;
    if low != high {
        return false;
    }
    let digit = low & 1;
    digit == side
}

/// Whether the low keys of both spans are the same above the bit, where there are two spans.
fn do_agree(low: Option<Span>, high: Option<Span>, bit: u64) -> bool
    requires number { bit < 64 }
    ensures yes { result ≡ true → (s t : Span) → low ≡ Some s → high ≡ Some t → above bit s.low ≡ above bit t.low }
    ensures no { result ≡ false → (s : Span) × ((t : Span) × ((low ≡ Some s) × (high ≡ Some t) × (above bit s.low ≢ above bit t.low))) }
{
    let Some(s) = low else {
        return true;
    };
    let Some(t) = high else {
        return true;
    };
    let above_low = s.low >> bit >> 1;
    let above_high = t.low >> bit >> 1;
    above_low == above_high
}

/// Whether the keys of the spans part at the bit.
fn do_spans_part(low: Option<Span>, high: Option<Span>, bit: u64) -> bool
    requires number { bit < 64 }
    ensures yes { result ≡ true → DoSpansPart low high bit }
    ensures no { result ≡ false → AreMixed low high bit }
{
    if !are_on_side(low, bit, 0) {
        return false;
    }
    if !are_on_side(high, bit, 1) {
        return false;
    }
    do_agree(low, high, bit)
}

/// Whether a key that can be told below the inner object is on a wrong side.
fn has_wrong_key<D: Disk>(
    alloc: Global,
    client: &mut Client<D>,
    fork: Fork,
) -> Result<bool, MapRefusal>
    requires rooted { held (seen client.old) 0 ≡ Some root }
    requires start { slot_of (at (seen client.old) root) 13 ≢ 0 }
    requires fork { IsFork (at (seen client.old)) (slot_of (at (seen client.old) root) 13) fork }
    ensures yes { IfOk result (λ yes. yes ≡ true → HasWrongKey (at (seen client.old)) fork.id) }
    ensures no { IfOk result (λ yes. yes ≡ false → HasWrongKey (at (seen client.old)) fork.id → ⊥) }
    ensures looks { OnOk result (Looks client.old client.new) }
    ensures refused { IfErr result (λ why. Refuses why ⊥ client.old client.new) }
{
    let mut met = BTreeSet::new(alloc);
    let low = tell(client, &mut met, None, fork.low, fork.guide, fork.bit)?;
    let mut others = BTreeSet::new(alloc);
    let high = tell(client, &mut others, None, fork.high, fork.turned, fork.bit)?;
    let part = do_spans_part(low, high, fork.bit);
    Ok(!part)
}

/// Why there is no map, where something below an inner object was refused: its object is named where a key is on a wrong side of it.
pub(crate) fn blame<D: Disk>(
    alloc: Global,
    client: &mut Client<D>,
    fork: Fork,
    why: MapRefusal,
) -> MapRefusal
    requires ready { (d : ℕ) → why ≡ MapRefusal.NotMap d → IsReady (seen client.old) fork }
    ensures { Blames why (HasWrongKey (at (seen client.old)) fork.id) fork.id client.old client.new result }
{
    let MapRefusal::NotMap { .. } = why else {
        return why;
    };
    match has_wrong_key(alloc, client, fork) {
        Ok(true) => MapRefusal::NotMap { id: fork.id },
        Ok(false) => why,
        Err(stopped) => stopped,
    }
}
