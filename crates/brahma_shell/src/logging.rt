//! The command `log`.
ghost use Rattle.std.specs.Prelude.{◌≡◌, ◌⊎◌, ◌≤◌, ℕ};
ghost use Rattle.brahma_shell.specs.Ended.{disk_in};
ghost use Rattle.brahma_shell.specs.Top.{outside};
ghost use Rattle.brahma_shell.specs.Logged.{Logged};

use crate::ended::Ended;
use crate::refusing::refuse;
use crate::status::{DONE, WRITE_FAULT};
use disk_model::Disk;
use log_printing::{PrintRefusal, print_log};
use outside_io::Sink;
use script_lines::SLOTS;
use std::alloc::Global;

/// Writes the current log as text, a line for each record, and answers the status. The store isn't opened, and nothing is written
/// to the disk.
pub(crate) fn log_text<W: Sink, D: Disk>(alloc: Global, out: &mut W, disk: D) -> (u8, Ended<D>)
    ensures logged { (left : _) (reads : ℕ) → Logged D.content D.may_leave D.moment D.left_since disk
        (outside left reads (W.written out.old) (W.faults out.old) (D.faults disk))
        (outside left reads (W.written out.new) (W.faults out.new) (D.faults (disk_in result.1)))
        result.0 result.1 }
    ensures out_later { W.faults out.old ≤ W.faults out.new }
    ensures disk_later { D.faults disk ≤ D.faults (disk_in result.1) }
{
    let mut disk = disk;
    match print_log::<D, W, SLOTS>(alloc, &mut disk, out) {
        Ok(()) => (DONE, Ended::Shut(disk)),
        Err(PrintRefusal::Unread(refusal)) => (refuse(out, &refusal), Ended::Shut(disk)),
        Err(PrintRefusal::Write) => (WRITE_FAULT, Ended::Shut(disk)),
    }
}
