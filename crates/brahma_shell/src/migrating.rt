//! The command `migrate`.
ghost use Rattle.std.specs.Prelude.{◌≡◌, ◌⊎◌, ◌≤◌, ℕ};
ghost use Rattle.brahma_shell.specs.Ended.{disk_in};
ghost use Rattle.brahma_shell.specs.Top.{outside};
ghost use Rattle.brahma_shell.specs.Migrated.{Migrated, Unmigrated};

use crate::ended::Ended;
use crate::refusing::refuse;
use crate::status::{DONE, WRITE_FAULT};
use disk_model::Disk;
use outside_io::Sink;
use script_lines::{pages_line, write_all};
use std::alloc::Global;
use store_migration::migrate;

/// Makes the store that the disk holds one of fourteen slots, tells how many pages it has, and answers the status. A store
/// that is one already is opened.
pub(crate) fn migrate_store<W: Sink, D: Disk>(alloc: Global, out: &mut W, disk: D) -> (u8, Ended<D>)
    ensures migrated { (left : _) (reads : ℕ) → Unmigrated D.content D.may_leave D.moment D.left_since disk
        (outside left reads (W.written out.old) (W.faults out.old) (D.faults disk))
        (outside left reads (W.written out.new) (W.faults out.new) (D.faults (disk_in result.1)))
        result.0 result.1
        ⊎ Migrated D.content D.may_leave D.moment D.left_since disk
        (outside left reads (W.written out.old) (W.faults out.old) (D.faults disk))
        (outside left reads (W.written out.new) (W.faults out.new) (D.faults (disk_in result.1)))
        result.0 result.1 }
    ensures statuses { (result.0 ≡ 0) ⊎ ((result.0 ≡ 5) ⊎ ((result.0 ≡ 6) ⊎ ((result.0 ≡ 7) ⊎ ((result.0 ≡ 8) ⊎ (result.0 ≡ 9))))) }
    ensures out_later { W.faults out.old ≤ W.faults out.new }
    ensures disk_later { D.faults disk ≤ D.faults (disk_in result.1) }
{
    let mut disk = disk;
    let pages = match migrate(alloc, &mut disk) {
        Ok(pages) => pages,
        Err(refusal) => return (refuse(out, &refusal), Ended::Shut(disk)),
    };
    match write_all(out, pages_line(pages).as_str().as_bytes()) {
        Ok(()) => (DONE, Ended::Shut(disk)),
        Err(_) => (WRITE_FAULT, Ended::Shut(disk)),
    }
}
