//! The way down the tree.
ghost use Rattle.std.specs.Prelude.{◌≡◌, ◌<◌, [], IfOk, IfErr, OnOk};
ghost use Rattle.object_map.specs.Clients.{seen, Asks, Falls};
ghost use Rattle.object_map.specs.Ways.{HoldsTree, IsAtLeaf};

use crate::CELL_SLOT;
use crate::client::Client;
use crate::refusal::MapRefusal;
use disk_model::Disk;

/// Goes from the tree in register 1 to the leaf to which the key's bits lead, and answers the leaf's key.
pub(crate) fn descend<D: Disk>(client: &mut Client<D>, key: u64) -> Result<u64, MapRefusal>
    requires tree { HoldsTree (seen client.old) }
    ensures leaf { IfOk result (λ found. IsAtLeaf key found (seen client.old) (seen client.new)) }
    ensures asks { OnOk result (Asks 194 [] client.old client.new) }
    ensures refused { IfErr result (λ why. Falls 0 why client.old client.new) }
{
    let mut last = 64;
    'down: loop {
        let payload = client.get_pay(1)?;
        if client.read(1, CELL_SLOT, 2)? != 0 {
            return Ok(payload);
        }
        let slot = ((key >> payload) & 1) as u8;
        client.read(1, slot, 1)?;
        last = payload;
    }
}
