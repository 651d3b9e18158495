//! The command `paudit`.
ghost use Rattle.std.specs.Prelude.{◌≡◌, ◌⊎◌, ◌<◌, ◌≤◌, ◌*◌, ℕ, [], codes};
ghost use Rattle.std.specs.Io.KnownBytes.{Appends};
ghost use Rattle.std.specs.List.{range_with_len};
ghost use Rattle.disk_model.specs.Causes.{Rose};
ghost use Rattle.core_store.specs.JournalView.{cells_of};
ghost use Rattle.par_audit.specs.Garbage.{IsGarbage};
ghost use Rattle.script_lines.specs.Output.{AppendsFront, EndsWith};
ghost use Rattle.brahma_shell.specs.Ended.{disk_in};
ghost use Rattle.brahma_shell.specs.Top.{Unopened, outside};
ghost use Rattle.brahma_shell.specs.ParAudited.{ParAudited, par_audit_text};

use crate::ended::Ended;
use crate::opened::OpenedStore;
use crate::refusing::refuse;
use crate::status::{DONE, OUT_OF_MEMORY, WRITE_FAULT};
use disk_model::Disk;
use outside_io::Sink;
use script_lines::{par_audit_line, write_all, write_last};
use std::alloc::Global;
use std::thread::Threads;

/// Counts all pointers of the store again and what is garbage, by so many pieces, tells what it found, and answers the status.
fn tell_par_audit<W: Sink, D: Disk>(
    rt: &(impl Threads + Sync),
    alloc: Global,
    store: &OpenedStore<D>,
    pieces: u16,
    out: &mut W,
) -> u8
    requires some { 0 < pieces }
    requires few { pieces ≤ 1024 }
    ensures statuses { (result ≡ 0) ⊎ ((result ≡ 5) ⊎ (result ≡ 8)) }
    ensures done { (pages : ℕ) → 8 * pages ≡ store.now.journal.history.ids → result ≡ 0
        → (garbage : ℕ) × IsGarbage (cells_of store.now.journal) (range_with_len 1 (8 * pages)) garbage
        × Appends (W.written out.old) (W.written out.new) (par_audit_text (cells_of store.now.journal) pages garbage) }
    ensures write { (pages : ℕ) → 8 * pages ≡ store.now.journal.history.ids → result ≡ 5
        → (garbage : ℕ) × IsGarbage (cells_of store.now.journal) (range_with_len 1 (8 * pages)) garbage
        × AppendsFront (W.written out.old) (W.written out.new) (par_audit_text (cells_of store.now.journal) pages garbage)
        × Rose (W.faults out.old) (W.faults out.new) }
    ensures memory { result ≡ 8 → EndsWith (W.written out.old) (W.written out.new)
        (W.faults out.old) (W.faults out.new) [] (codes "refused: memory\n") }
    ensures later { W.faults out.old ≤ W.faults out.new }
{
    let Ok(wide) = store.par_audit(rt, alloc, pieces) else {
        write_last(out, b"refused: memory\n");
        return OUT_OF_MEMORY;
    };
    let line = par_audit_line(
        store.pages() as u64,
        u64::from(wide.report.live),
        u64::from(wide.report.zero),
        wide.report.differences.items().len() as u64,
        u64::from(wide.garbage),
    );
    match write_all(out, line.as_str().as_bytes()) {
        Ok(()) => DONE,
        Err(_) => WRITE_FAULT,
    }
}

/// Opens the store that the disk holds, audits it by so many pieces on several threads, and answers the status.
pub(crate) fn par_audit_store<W: Sink, D: Disk>(
    rt: &(impl Threads + Sync),
    alloc: Global,
    out: &mut W,
    disk: D,
    pieces: u16,
) -> (u8, Ended<D>)
    requires some { 0 < pieces }
    requires few { pieces ≤ 1024 }
    ensures audited { (left : _) (reads : ℕ) → Unopened D.content D.may_leave D.moment D.left_since disk
        (outside left reads (W.written out.old) (W.faults out.old) (D.faults disk))
        (outside left reads (W.written out.new) (W.faults out.new) (D.faults (disk_in result.1)))
        result.0 result.1
        ⊎ ParAudited D.content D.may_leave disk
        (outside left reads (W.written out.old) (W.faults out.old) (D.faults disk))
        (outside left reads (W.written out.new) (W.faults out.new) (D.faults (disk_in result.1)))
        result.0 result.1 }
    ensures statuses { (result.0 ≡ 0) ⊎ ((result.0 ≡ 5) ⊎ ((result.0 ≡ 6) ⊎ ((result.0 ≡ 7) ⊎ ((result.0 ≡ 8) ⊎ (result.0 ≡ 9))))) }
    ensures out_later { W.faults out.old ≤ W.faults out.new }
    ensures disk_later { D.faults disk ≤ D.faults (disk_in result.1) }
{
    match OpenedStore::open(alloc, disk) {
        Ok(store) => {
            // How many ids and pages there are, and what a power loss may leave: these calls hand the facts out.
            let _ = store.ids();
            let _ = store.pages();
            let _ = store.history();
            let status = tell_par_audit(rt, alloc, &store, pieces, out);
            (status, Ended::Kept(store.into_logged()))
        }
        Err((refusal, disk)) => (refuse(out, &refusal), Ended::Shut(disk)),
    }
}
