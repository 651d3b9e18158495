//! The parallel audit of a journal with all its frames.
ghost use Rattle.std.specs.Prelude.{◌≡◌, ◌<◌, ◌≤◌, [], IfOk};
ghost use Rattle.std.specs.List.{range_with_len};
ghost use Rattle.cell_page.specs.Format.{IsSlotCount};
ghost use Rattle.core_store.specs.JournalView.{cells_of};
ghost use Rattle.auditor.specs.Recount.{live_in, zero_in};
ghost use Rattle.par_audit.specs.Garbage.{IsGarbage};

use crate::wide::{Wide, par_audit};
use disk_model::Disk;
use framed_journal::FramedJournal;
use plain_model::Memory;
use std::alloc::Global;
use std::thread::Threads;

/// Audits what a journal leaves in its frames, by so many pieces in several threads: how many objects are live, how many of
/// them no strong pointer leads to, and how many of them the root doesn't reach. It finds no difference.
///
/// `pieces` is from 1 to 1,024. `Memory` is the only error, and nothing else happens then.
pub fn par_audit_journal<const SLOTS: usize, D: Disk>(
    rt: &(impl Threads + Sync),
    alloc: Global,
    framed: &FramedJournal<SLOTS, D>,
    pieces: u16,
) -> Result<Wide, Memory>
    requires size { IsSlotCount SLOTS }
    requires some { 0 < pieces }
    requires cut { pieces ≤ 1024 }
    ensures live { IfOk result (λ w. w.report.live ≡ live_in (cells_of framed.now.journal)) }
    ensures zero { IfOk result (λ w. w.report.zero ≡ zero_in (cells_of framed.now.journal) (range_with_len 1 framed.now.journal.history.ids)) }
    ensures differences { IfOk result (λ w. w.report.differences ≡ []) }
    ensures garbage { IfOk result (λ w. IsGarbage (cells_of framed.now.journal) (range_with_len 1 framed.now.journal.history.ids) w.garbage) }
{
    let journal = framed.logged().journal();
    par_audit(
        rt,
        alloc,
        journal.opening(),
        journal.history(),
        framed.frames(),
        pieces,
    )
}
