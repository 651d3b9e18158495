//! The command `ship`.
ghost use Rattle.std.specs.Prelude.{◌≡◌, ◌⊎◌, ◌≤◌, ℕ};
ghost use Rattle.brahma_shell.specs.Ended.{disk_in};
ghost use Rattle.brahma_shell.specs.Top.{outside};
ghost use Rattle.brahma_shell.specs.Shipped.{Shipped};

use crate::ended::Ended;
use crate::refusing::refuse;
use crate::status::{DONE, WRITE_FAULT};
use disk_model::Disk;
use outside_io::Sink;
use script_lines::SLOTS;
use std::alloc::Global;
use stream_writing::{ShipRefusal, ship};

/// Writes the bytes of the current log, up to and with its first closed commit byte, and answers the status. The store isn't
/// opened, and nothing is written to the disk.
pub(crate) fn ship_log<W: Sink, D: Disk>(alloc: Global, out: &mut W, disk: D) -> (u8, Ended<D>)
    ensures shipped { (left : _) (reads : ℕ) → Shipped D.content D.may_leave D.moment D.left_since disk
        (outside left reads (W.written out.old) (W.faults out.old) (D.faults disk))
        (outside left reads (W.written out.new) (W.faults out.new) (D.faults (disk_in result.1)))
        result.0 result.1 }
    ensures out_later { W.faults out.old ≤ W.faults out.new }
    ensures disk_later { D.faults disk ≤ D.faults (disk_in result.1) }
{
    let mut disk = disk;
    match ship::<D, W, SLOTS>(alloc, &mut disk, out) {
        Ok(()) => (DONE, Ended::Shut(disk)),
        Err(ShipRefusal::Unread(refusal)) => (refuse(out, &refusal), Ended::Shut(disk)),
        Err(ShipRefusal::Write) => (WRITE_FAULT, Ended::Shut(disk)),
    }
}
