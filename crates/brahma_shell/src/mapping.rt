//! The command `map`: lines over the ordered map that a store keeps.
ghost use Rattle.std.specs.Prelude.{◌≡◌, ◌⊎◌, IfSome};
ghost use Rattle.stored_map.specs.Stores.{HasOwnLimits};
ghost use Rattle.brahma_shell.specs.Ended.{kept_in, disk_in};
ghost use Rattle.brahma_shell.specs.MapRan.{IsOfMap, Unmapped, MapRan, ended_of};
ghost use Rattle.brahma_shell.specs.Top.{GoesLater, IsStatusOfReplay, outside};

use crate::ended::Ended;
use crate::running::know;
use disk_model::Disk;
use map_script::{end_unopened, map_script};
use outside_io::{Sink, Source};
use std::alloc::Global;
use stored_map::{Released, StoredMap};

/// What is handed back of a store that was let go.
fn ended_with<D: Disk>(released: Released<D>) -> Ended<D>
    requires limits { HasOwnLimits released }
    ensures is { result ≡ ended_of released }
    ensures journal { IfSome (kept_in result) (λ v. IsOfMap D.may_leave v) }
{
    match released {
        Released::Open(logged) => {
            // What is known of the journal: these calls hand the facts out.
            know(&logged);
            let _ = logged.journal().history();
            Ended::Kept(logged)
        }
        Released::Shut(disk) => Ended::Shut(disk),
    }
}

/// Opens the store that the disk holds, does the lines of the source in its map, and answers the status. The journal is handed back, or
/// the disk where the store isn't opened or keeps no map.
pub(crate) fn map_store<R: Source, W: Sink, D: Disk>(
    alloc: Global,
    script: &mut R,
    out: &mut W,
    disk: D,
) -> (u8, Ended<D>)
    ensures mapped { (script.new ≡ script.old) × Unmapped D.content D.may_leave D.moment D.left_since disk
        (outside (R.left script.old) (R.faults script.old) (W.written out.old) (W.faults out.old) (D.faults disk))
        (outside (R.left script.new) (R.faults script.new) (W.written out.new) (W.faults out.new) (D.faults (disk_in result.1)))
        result.0 result.1
        ⊎ MapRan D.content D.may_leave disk
        (outside (R.left script.old) (R.faults script.old) (W.written out.old) (W.faults out.old) (D.faults disk))
        (outside (R.left script.new) (R.faults script.new) (W.written out.new) (W.faults out.new) (D.faults (disk_in result.1)))
        result.0 result.1 }
    ensures later { GoesLater
        (outside (R.left script.old) (R.faults script.old) (W.written out.old) (W.faults out.old) (D.faults disk))
        (outside (R.left script.new) (R.faults script.new) (W.written out.new) (W.faults out.new) (D.faults (disk_in result.1))) }
    ensures statuses { IsStatusOfReplay result.0 }
{
    match StoredMap::open(alloc, disk) {
        Ok(store) => {
            let mut store = store;
            let status = map_script(alloc, &mut store, script, out);
            let released = store.release();
            (status, ended_with(released))
        }
        Err((unopened, released)) => {
            let status = end_unopened(out, &unopened);
            (status, ended_with(released))
        }
    }
}
