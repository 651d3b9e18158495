//! New objects of the tree. All of them are made before anything is written: where an id is missing, nothing was.
ghost use Rattle.std.specs.Prelude.{◌≡◌, ◌≢◌, ◌<◌, IfErr, OnOk, IsSome};
ghost use Rattle.object_map.specs.Clients.{seen, Asks, Falls, leaf_writes, leaf_calls, inner_writes, fork_calls};
ghost use Rattle.object_map.specs.Making.{MakesLeaf, MakesFork, leaf_filled, inner_filled};
ghost use Rattle.object_map.specs.Seen.{held, held_id};

use crate::CELL_SLOT;
use crate::client::Client;
use crate::refusal::MapRefusal;
use disk_model::Disk;

/// Makes a leaf of the object in register 3, with that in register 4 as its cell.
fn fill_leaf<D: Disk>(client: &mut Client<D>, key: u64, value: u64) -> Result<(), MapRefusal>
    requires leaf { IsSome (held (seen client.old) 3) }
    requires cell { IsSome (held (seen client.old) 4) }
    ensures filled { OnOk result (seen client.new ≡ leaf_filled key value (seen client.old)) }
    ensures asks { OnOk result (Asks 0 (leaf_writes key value) client.old client.new) }
    ensures refused { IfErr result (λ why. Falls 0 why client.old client.new) }
{
    client.set_pay(4, value)?;
    client.set_pay(3, key)?;
    client.store(3, CELL_SLOT, Some(4))?;
    Ok(())
}

/// Makes an inner object of the object in register 5: over that in register 3, on this side, and that in register 1.
fn fill_inner<D: Disk>(client: &mut Client<D>, bit: u64, side: u8) -> Result<(), MapRefusal>
    requires side { side < 2 }
    requires inner { IsSome (held (seen client.old) 5) }
    requires leaf { IsSome (held (seen client.old) 3) }
    requires other { IsSome (held (seen client.old) 1) }
    ensures filled { OnOk result (seen client.new ≡ inner_filled bit side (seen client.old)) }
    ensures asks { OnOk result (Asks 0 (inner_writes bit side) client.old client.new) }
    ensures refused { IfErr result (λ why. Falls 0 why client.old client.new) }
{
    client.set_pay(5, bit)?;
    client.store(5, side, Some(3))?;
    client.store(5, 1 - side, Some(1))?;
    Ok(())
}

/// Makes a leaf with its cell. Register 3 holds the leaf then.
pub(crate) fn make_leaf<D: Disk>(
    client: &mut Client<D>,
    key: u64,
    value: u64,
) -> Result<(), MapRefusal>
    ensures leaf { OnOk result (MakesLeaf key value (seen client.old) (seen client.new)) }
    ensures asks { OnOk result (Asks 0 (leaf_calls key value) client.old client.new) }
    ensures refused { IfErr result (λ why. Falls 2 why client.old client.new) }
{
    client.know_slots();
    client.make(4)?;
    client.make(3)?;
    fill_leaf(client, key, value)?;
    Ok(())
}

/// Makes a leaf with its cell, and an inner object over the leaf, on this side, and the object in register 1. Register 5 holds the inner
/// object then.
pub(crate) fn make_fork<D: Disk>(
    client: &mut Client<D>,
    key: u64,
    value: u64,
    bit: u64,
    side: u8,
) -> Result<(), MapRefusal>
    requires side { side < 2 }
    requires other { IsSome (held (seen client.old) 1) }
    requires other_named { held_id (seen client.old) 1 ≢ 0 }
    ensures low { OnOk result (side ≡ 0 → MakesFork key value bit 3 1 (seen client.old) (seen client.new)) }
    ensures high { OnOk result (side ≡ 1 → MakesFork key value bit 1 3 (seen client.old) (seen client.new)) }
    ensures asks { OnOk result (Asks 0 (fork_calls key value bit side) client.old client.new) }
    ensures refused { IfErr result (λ why. Falls 3 why client.old client.new) }
{
    client.know_slots();
    client.make(4)?;
    client.make(3)?;
    client.make(5)?;
    fill_leaf(client, key, value)?;
    fill_inner(client, bit, side)?;
    Ok(())
}
