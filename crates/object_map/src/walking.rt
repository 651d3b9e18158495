//! Looks at objects that may be those of a tree or not.
ghost use Rattle.std.specs.Prelude.{◌≡◌, ◌≢◌, ◌<◌, ◌↔◌, ◌+◌, [], not, ℕ, Some, None, true, false, IfOk, IfErr, OnOk, IsSome, IfSome};
ghost use Rattle.std.specs.Int.{bit_at};
ghost use Rattle.std.specs.Ordering.{nat_cmp};
ghost use Rattle.std.specs.BTreeSet.{insert_key};
ghost use Rattle.plain_model.specs.Graphs.{root};
ghost use Rattle.plain_model.specs.Machine.{is_stored};
ghost use Rattle.object_map.specs.Broken.{BreaksInner, IsFirst, IsMet};
ghost use Rattle.object_map.specs.Clients.{object_slots, seen, Asks, Falls};
ghost use Rattle.object_map.specs.Maps.{slot_of, payload_of, IsLeaf, IsCell, IsInner};
ghost use Rattle.object_map.specs.Seen.{at, held, held_id};
ghost use Rattle.object_map.specs.Trees.{above};
ghost use Rattle.object_map.specs.Walking.{Looks, Scans, Refuses, IsReached, NoTree};

use crate::client::Client;
use crate::refusal::MapRefusal;
use crate::{CELL_SLOT, MAP_SLOT};
use disk_model::Disk;
use std::collections::BTreeSet;

/// How many slots an object has.
const SLOT_COUNT: u8 = 14;

/// Whether the slot of the object in register `r` is null, or one of these two. Register 4 may get what it names.
fn is_spare<D: Disk>(
    client: &mut Client<D>,
    r: u8,
    slot: u8,
    a: u8,
    b: u8,
) -> Result<bool, MapRefusal>
    requires register { r < 4 }
    requires full { IsSome (held (seen client.old) r) }
    requires slot { slot < object_slots }
    ensures null { IfOk result (λ yes. yes ≡ true → slot ≢ a → slot ≢ b → slot_of (at (seen client.old) (held_id (seen client.old) r)) slot ≡ 0) }
    ensures other { IfOk result (λ yes. yes ≡ false → (slot ≢ a) × (slot ≢ b) × (slot_of (at (seen client.old) (held_id (seen client.old) r)) slot ≢ 0)) }
    ensures scans { OnOk result (Scans client.old client.new) }
    ensures asks { OnOk result (Asks 1 [] client.old client.new) }
    ensures refused { IfErr result (λ why. Falls 0 why client.old client.new) }
{
    if slot == a {
        return Ok(true);
    }
    if slot == b {
        return Ok(true);
    }
    let id = client.read(r, slot, 4)?;
    Ok(id == 0)
}

/// Whether all slots of the object in register `r` are null, but for these two.
fn has_only<D: Disk>(client: &mut Client<D>, r: u8, a: u8, b: u8) -> Result<bool, MapRefusal>
    requires register { r < 4 }
    requires full { IsSome (held (seen client.old) r) }
    ensures null { IfOk result (λ yes. yes ≡ true → (k : ℕ) → k ≢ a → k ≢ b → slot_of (at (seen client.old) (held_id (seen client.old) r)) k ≡ 0) }
    ensures other { IfOk result (λ yes. yes ≡ false → (k : ℕ) × ((k ≢ a) × (k ≢ b) × (slot_of (at (seen client.old) (held_id (seen client.old) r)) k ≢ 0))) }
    ensures scans { OnOk result (Scans client.old client.new) }
    ensures asks { OnOk result (Asks 14 [] client.old client.new) }
    ensures refused { IfErr result (λ why. Falls 0 why client.old client.new) }
{
    client.know_held(r);
    for slot in 0..SLOT_COUNT {
        if !is_spare(client, r, slot, a, b)? {
            return Ok(false);
        }
    }
    Ok(true)
}

/// Adds a cell to those that were met, and answers whether it is a new one.
pub(crate) fn meet(cells: &mut BTreeSet<u32>, cell: u32) -> Result<bool, MapRefusal>
    ensures fresh { IfOk result (λ new. is_stored cells.old.keys cell ≡ not new) }
    ensures met { OnOk result (cells.new.keys ≡ insert_key nat_cmp cells.old.keys cell) }
    ensures starved { IfErr result (λ why. why ≡ MapRefusal.Memory) }
{
    match cells.insert(cell) {
        Ok(new) => Ok(new),
        Err(_) => Err(MapRefusal::Memory),
    }
}

/// Looks at the leaf in register 1, and at its cell in register 2, which joins those that were met.
pub(crate) fn meet_leaf<D: Disk>(
    client: &mut Client<D>,
    cells: &mut BTreeSet<u32>,
    id: u32,
    cell: u32,
) -> Result<(), MapRefusal>
    requires leaf { held (seen client.old) 1 ≡ Some id }
    requires cell { held (seen client.old) 2 ≡ Some cell }
    requires names { slot_of (at (seen client.old) id) 2 ≡ cell }
    requires there { id ≢ 0 }
    requires named { cell ≢ 0 }
    ensures is_leaf { OnOk result (IsLeaf (at (seen client.old) id) (payload_of (at (seen client.old) id)) cell) }
    ensures is_cell { OnOk result (IsCell (at (seen client.old) cell) (payload_of (at (seen client.old) cell))) }
    ensures fresh { OnOk result (is_stored cells.old.keys cell ≡ false) }
    ensures met { OnOk result (cells.new.keys ≡ insert_key nat_cmp cells.old.keys cell) }
    ensures looks { OnOk result (Looks client.old client.new) }
    ensures asks { OnOk result (Asks 28 [] client.old client.new) }
    ensures refused { IfErr result (λ why. (below : ℕ) → Refuses why (NoTree (at (seen client.old)) id below cells.old.keys) client.old client.new) }
    ensures first { IfErr result (λ why. (below d : ℕ) → why ≡ MapRefusal.NotMap d → IsFirst (at (seen client.old)) (IsMet cells.old.keys) below id d) }
{
    client.know_held(2);
    if !has_only(client, 1, CELL_SLOT, CELL_SLOT)? {
        return Err(MapRefusal::NotMap { id });
    }
    if !meet(cells, cell)? {
        return Err(MapRefusal::NotMap { id });
    }
    if !has_only(client, 2, SLOT_COUNT, SLOT_COUNT)? {
        return Err(MapRefusal::NotMap { id: cell });
    }
    Ok(())
}

/// What slots 0 and 1 of the object in register 1 name, where both name objects and its other slots are null.
pub(crate) fn sides<D: Disk>(client: &mut Client<D>) -> Result<Option<(u32, u32)>, MapRefusal>
    requires full { IsSome (held (seen client.old) 1) }
    ensures inner { IfOk result (λ found. IfSome found (λ s. IsInner (at (seen client.old) (held_id (seen client.old) 1)) (payload_of (at (seen client.old) (held_id (seen client.old) 1))) s.0 s.1)) }
    ensures broken { IfOk result (λ found. found ≡ None → (bit : ℕ) → BreaksInner (at (seen client.old)) bit (held_id (seen client.old) 1)) }
    ensures none { IfOk result (λ found. found ≡ None → (bit low high : ℕ) → IsInner (at (seen client.old) (held_id (seen client.old) 1)) bit low high → ⊥) }
    ensures scans { OnOk result (Scans client.old client.new) }
    ensures asks { OnOk result (Asks 16 [] client.old client.new) }
    ensures refused { IfErr result (λ why. Falls 0 why client.old client.new) }
{
    let low = client.read(1, 0, 4)?;
    if low == 0 {
        return Ok(None);
    }
    let high = client.read(1, 1, 4)?;
    if high == 0 {
        return Ok(None);
    }
    if !has_only(client, 1, 0, 1)? {
        return Ok(None);
    }
    Ok(Some((low, high)))
}

/// Whether two keys part at this bit, of which the first has 0 there and the second 1.
pub(crate) fn do_part(low: u64, high: u64, bit: u64) -> bool
    requires number { bit < 64 }
    ensures { (result ≡ true) ↔ ((above bit low ≡ above bit high) × (bit_at low bit ≡ 0) × (bit_at high bit ≡ 1)) }
{
    let above_low = low >> bit >> 1;
    let above_high = high >> bit >> 1;
    if above_low != above_high {
        return false;
    }
    let low_digit = (low >> bit) & 1;
    if low_digit != 0 {
        return false;
    }
    let high_digit = (high >> bit) & 1;
    high_digit == 1
}

/// Goes from the root's slot by the guide's bits to an object. Register 1 holds it then.
pub(crate) fn reach<D: Disk>(
    client: &mut Client<D>,
    guide: u64,
    target: u32,
) -> Result<(), MapRefusal>
    requires rooted { held (seen client.old) 0 ≡ Some root }
    requires start { slot_of (at (seen client.old) root) 13 ≢ 0 }
    requires way { (below : ℕ) × IsReached (at (seen client.old)) guide below (slot_of (at (seen client.old) root) 13) target }
    ensures here { OnOk result (held (seen client.new) 1 ≡ Some target) }
    ensures looks { OnOk result (Looks client.old client.new) }
    ensures asks { OnOk result (Asks 129 [] client.old client.new) }
    ensures refused { IfErr result (λ why. Falls 0 why client.old client.new) }
{
    let mut id = client.read(0, MAP_SLOT, 1)?;
    let mut last = 64;
    'down: loop {
        if id == target {
            return Ok(());
        }
        let payload = client.get_pay(1)?;
        let slot = ((guide >> payload) & 1) as u8;
        id = client.read(1, slot, 1)?;
        last = payload;
    }
}
