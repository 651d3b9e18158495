//! The command `backup`.
ghost use Rattle.std.specs.Prelude.{◌≡◌, ◌⊎◌, ◌≤◌, ℕ, List, [], None, false, codes};
ghost use Rattle.std.specs.Io.KnownBytes.{Appends};
ghost use Rattle.plain_model.specs.History.{end_of, least_active};
ghost use Rattle.disk_model.specs.Causes.{Rose};
ghost use Rattle.disk_model.specs.Time.{LeavesOnlyImages};
ghost use Rattle.core_store.specs.Limited.{is_past_limit};
ghost use Rattle.core_store.specs.JournalView.{cells_of};
ghost use Rattle.logged_journal.specs.View.{history_of};
ghost use Rattle.logged_journal.specs.Opens.{OpensAfter};
ghost use Rattle.script_lines.specs.Numbers.{object_slots};
ghost use Rattle.script_lines.specs.Output.{AppendsFront, EndsWith};
ghost use Rattle.stream_writing.specs.Backups.{IsBaseOf};
ghost use Rattle.brahma_shell.specs.Ended.{disk_in};
ghost use Rattle.brahma_shell.specs.Top.{Unopened, outside};
ghost use Rattle.brahma_shell.specs.BackedUp.{BackedUp, LeavesStore};

use crate::ended::Ended;
use crate::opened::OpenedStore;
use crate::refusing::refuse;
use crate::status::{DISK_FAULT, DONE, LIMIT, OUT_OF_MEMORY, WRITE_FAULT};
use disk_model::Disk;
use outside_io::Sink;
use script_lines::write_last;
use std::alloc::Global;
use stream_writing::BackupRefusal;

/// Makes a backup of the store that was opened, and answers the status.
fn tell_backup<W: Sink, D: Disk>(store: &mut OpenedStore<D>, out: &mut W) -> u8
    requires running { store.old.failed ≡ None }
    requires idle { least_active (end_of store.old.journal.history).state ≡ None }
    requires room { is_past_limit store.old.journal 1 ≡ false }
    ensures statuses { (result ≡ 0) ⊎ ((result ≡ 5) ⊎ ((result ≡ 6) ⊎ ((result ≡ 8) ⊎ (result ≡ 9)))) }
    ensures leaves { LeavesStore D.faults D.may_leave result store.old store.new }
    ensures done { result ≡ 0 → (bytes : List ℕ) × IsBaseOf object_slots store.new.journal.history.ids (cells_of store.new.journal) bytes
        × Appends (W.written out.old) (W.written out.new) bytes }
    ensures write { result ≡ 5 → Rose (W.faults out.old) (W.faults out.new)
        × ((bytes : List ℕ) × IsBaseOf object_slots store.new.journal.history.ids (cells_of store.new.journal) bytes
        × AppendsFront (W.written out.old) (W.written out.new) bytes) }
    ensures disk { result ≡ 6 → EndsWith (W.written out.old) (W.written out.new) (W.faults out.old) (W.faults out.new) [] (codes "refused: disk\n") }
    ensures memory { result ≡ 8 → EndsWith (W.written out.old) (W.written out.new) (W.faults out.old) (W.faults out.new) [] (codes "refused: memory\n") }
    ensures limit { result ≡ 9 → EndsWith (W.written out.old) (W.written out.new) (W.faults out.old) (W.faults out.new) [] (codes "refused: log\n") }
    ensures later { W.faults out.old ≤ W.faults out.new }
    ensures disk_later { D.faults store.old.disk ≤ D.faults store.new.disk }
    ensures opens { LeavesOnlyImages D.moment D.left_since store.old.disk store.new.disk (OpensAfter object_slots (history_of store.old)) }
{
    match store.back_up(out) {
        Ok(()) => DONE,
        Err(BackupRefusal::Disk) => {
            write_last(out, b"refused: disk\n");
            DISK_FAULT
        }
        Err(BackupRefusal::LogFull) => {
            write_last(out, b"refused: log\n");
            LIMIT
        }
        Err(BackupRefusal::Memory) => {
            write_last(out, b"refused: memory\n");
            OUT_OF_MEMORY
        }
        Err(BackupRefusal::Write) => WRITE_FAULT,
    }
}

/// Opens the store that the disk holds, makes a checkpoint of it, writes the base of a stream, and answers the status.
pub(crate) fn back_up_store<W: Sink, D: Disk>(alloc: Global, out: &mut W, disk: D) -> (u8, Ended<D>)
    ensures backed_up { (left : _) (reads : ℕ) → Unopened D.content D.may_leave D.moment D.left_since disk
        (outside left reads (W.written out.old) (W.faults out.old) (D.faults disk))
        (outside left reads (W.written out.new) (W.faults out.new) (D.faults (disk_in result.1)))
        result.0 result.1
        ⊎ BackedUp D.content D.may_leave disk
        (outside left reads (W.written out.old) (W.faults out.old) (D.faults disk))
        (outside left reads (W.written out.new) (W.faults out.new) (D.faults (disk_in result.1)))
        result.0 result.1 }
    ensures statuses { (result.0 ≡ 0) ⊎ ((result.0 ≡ 5) ⊎ ((result.0 ≡ 6) ⊎ ((result.0 ≡ 7) ⊎ ((result.0 ≡ 8) ⊎ (result.0 ≡ 9))))) }
    ensures out_later { W.faults out.old ≤ W.faults out.new }
    ensures disk_later { D.faults disk ≤ D.faults (disk_in result.1) }
{
    match OpenedStore::open(alloc, disk) {
        Ok(mut store) => {
            // How many ids and pages there are, and what a power loss may leave: these calls hand the facts out.
            let _ = store.ids();
            let _ = store.pages();
            let _ = store.history();
            let status = tell_backup(&mut store, out);
            (status, Ended::Kept(store.into_logged()))
        }
        Err((refusal, disk)) => (refuse(out, &refusal), Ended::Shut(disk)),
    }
}
