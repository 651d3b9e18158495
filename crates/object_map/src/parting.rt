//! The place in the tree at which a key parts from the others.
ghost use Rattle.std.specs.Prelude.{◌≡◌, ◌≢◌, ◌<◌, [], IfOk, IfErr, OnOk, IsSome};
ghost use Rattle.plain_model.specs.Graphs.{root};
ghost use Rattle.object_map.specs.Clients.{object_slots, seen, Asks, Falls};
ghost use Rattle.object_map.specs.Maps.{slot_of};
ghost use Rattle.object_map.specs.Seen.{at, held, held_id, Keeps};
ghost use Rattle.object_map.specs.Parting.{IsCritical, LeadsTo, Turns, IsOnPart, HoldsTreeIn, IsFirstLeaf, IsFirstPair};

use crate::client::Client;
use crate::refusal::MapRefusal;
use crate::{CELL_SLOT, MAP_SLOT};
use disk_model::Disk;

/// The highest bit at which the keys differ.
fn critical_bit(key: u64, found: u64) -> u64
    requires { key ≢ found }
    ensures { IsCritical result key found }
{
    63 - (key ^ found).leading_zeros() as u64
}

/// Where a key parts from the others: at this bit, under this slot of the object in this register.
#[derive(Clone, Copy, Debug)]
pub(crate) struct Parting {
    pub(crate) bit: u64,
    pub(crate) register: u8,
    pub(crate) slot: u8,
    /// Whether register 3 holds the next tree to the right.
    pub(crate) right: bool,
}

/// Goes on from the object under the slot to the tree in its slot `side`. Answers whether register 3 holds the next tree to the right.
fn turn<D: Disk>(
    client: &mut Client<D>,
    register: u8,
    slot: u8,
    side: u8,
    right: bool,
) -> Result<bool, MapRefusal>
    requires register { register < 8 }
    requires full { IsSome (held (seen client.old) register) }
    requires slot { slot < object_slots }
    requires side { side < 2 }
    requires named { slot_of (at (seen client.old) (held_id (seen client.old) register)) slot ≢ 0 }
    ensures turns { IfOk result (λ after. Turns register slot side right after (seen client.old) (seen client.new)) }
    ensures asks { OnOk result (Asks 3 [] client.old client.new) }
    ensures refused { IfErr result (λ why. Falls 0 why client.old client.new) }
{
    client.read(register, slot, 2)?;
    client.read(2, side, 1)?;
    if side != 0 {
        return Ok(right);
    }
    client.read(2, 1, 3)?;
    Ok(true)
}

/// Goes from the root's slot to where the key parts from the leaf's key to which its bits lead. Register 1 holds the tree there.
pub(crate) fn part<D: Disk>(
    client: &mut Client<D>,
    key: u64,
    found: u64,
) -> Result<Parting, MapRefusal>
    requires rooted { held (seen client.old) 0 ≡ Some root }
    requires tree { LeadsTo 13 key found (seen client.old) }
    requires other { key ≢ found }
    ensures critical { IfOk result (λ p. IsCritical p.bit key found) }
    ensures way { IfOk result (λ p. IsOnPart key found p.bit p.bit p.register p.slot p.right (seen client.old) (seen client.new)) }
    ensures asks { OnOk result (Asks 323 [] client.old client.new) }
    ensures refused { IfErr result (λ why. Falls 0 why client.old client.new) }
{
    let bit = critical_bit(key, found);
    let mut register = 0;
    let mut slot = MAP_SLOT;
    let mut right = false;
    let mut last = 64;
    client.read(0, MAP_SLOT, 1)?;
    'down: loop {
        let payload = client.get_pay(1)?;
        let cell = client.read(1, CELL_SLOT, 4)?;
        if cell != 0 || payload < bit {
            return Ok(Parting {
                bit,
                register,
                slot,
                right,
            });
        }
        let side = ((key >> payload) & 1) as u8;
        right = turn(client, register, slot, side, right)?;
        register = 2;
        slot = side;
        last = payload;
    }
}

/// Goes from the tree in the register to its first leaf, and answers that leaf's key.
pub(crate) fn first<D: Disk>(client: &mut Client<D>, r: u8) -> Result<u64, MapRefusal>
    requires some { 0 < r }
    requires register { r < 4 }
    requires tree { HoldsTreeIn r (seen client.old) }
    ensures leaf { IfOk result (λ found. IsFirstLeaf r found (seen client.old) (seen client.new)) }
    ensures asks { OnOk result (Asks 194 [] client.old client.new) }
    ensures refused { IfErr result (λ why. Falls 0 why client.old client.new) }
{
    let mut last = 64;
    'down: loop {
        let payload = client.get_pay(r)?;
        if client.read(r, CELL_SLOT, 4)? != 0 {
            return Ok(payload);
        }
        client.read(r, 0, r)?;
        last = payload;
    }
}

/// The first pair of the tree in the register, which gets another object.
pub(crate) fn first_pair<D: Disk>(client: &mut Client<D>, r: u8) -> Result<(u64, u64), MapRefusal>
    requires some { 0 < r }
    requires register { r < 4 }
    requires tree { HoldsTreeIn r (seen client.old) }
    ensures first { IfOk result (λ pair. IsFirstPair r pair (seen client.old)) }
    ensures kept { OnOk result (Keeps (seen client.old) (seen client.new)) }
    ensures asks { OnOk result (Asks 196 [] client.old client.new) }
    ensures refused { IfErr result (λ why. Falls 0 why client.old client.new) }
{
    let key = first(client, r)?;
    client.read(r, CELL_SLOT, r)?;
    let value = client.get_pay(r)?;
    Ok((key, value))
}
