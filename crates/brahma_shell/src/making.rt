//! The command `init`.
ghost use Rattle.std.specs.Prelude.{◌≡◌, ◌≤◌, ℕ};
ghost use Rattle.brahma_shell.specs.Ended.{disk_in};
ghost use Rattle.brahma_shell.specs.Top.{Made, outside};

use crate::ended::Ended;
use crate::status::{DISK_FAULT, DONE, WRITE_FAULT};
use disk_model::Disk;
use outside_io::Sink;
use restart_store::init;
use script_lines::{SLOTS, pages_line, write_all, write_last};

/// Makes the disk anew as a fresh store of so many pages, tells it, and answers the status.
pub(crate) fn make_store<W: Sink, D: Disk>(out: &mut W, disk: D, pages: u16) -> (u8, Ended<D>)
    requires pages { (1 ≤ pages) × (pages ≤ 1024) }
    ensures made { (left : _) (reads : ℕ) → Made D.may_leave D.moment D.left_since disk pages
        (outside left reads (W.written out.old) (W.faults out.old) (D.faults disk))
        (outside left reads (W.written out.new) (W.faults out.new) (D.faults (disk_in result.1)))
        result.0 result.1 }
    ensures out_later { W.faults out.old ≤ W.faults out.new }
    ensures disk_later { D.faults disk ≤ D.faults (disk_in result.1) }
{
    let mut disk = disk;
    if init::<_, SLOTS>(&mut disk, pages).is_err() {
        write_last(out, b"refused: disk\n");
        return (DISK_FAULT, Ended::Shut(disk));
    }
    match write_all(out, pages_line(pages).as_str().as_bytes()) {
        Ok(()) => (DONE, Ended::Shut(disk)),
        Err(_) => (WRITE_FAULT, Ended::Shut(disk)),
    }
}
