//! The audit of a journal with all its frames.
ghost use Rattle.std.specs.Prelude.{◌≡◌, [], IfOk};
ghost use Rattle.std.specs.List.{range_with_len};
ghost use Rattle.cell_page.specs.Format.{IsSlotCount};
ghost use Rattle.core_store.specs.JournalView.{cells_of};
ghost use Rattle.auditor.specs.Recount.{live_in, zero_in};

use crate::auditing::audit;
use crate::report::Report;
use disk_model::Disk;
use framed_journal::FramedJournal;
use plain_model::Memory;
use std::alloc::Global;

/// Audits what a journal leaves in its frames: how many objects are live, and how many of them no strong pointer leads to.
/// It finds no difference.
pub fn audit_journal<const SLOTS: usize, D: Disk>(
    alloc: Global,
    framed: &FramedJournal<SLOTS, D>,
) -> Result<Report, Memory>
    requires { IsSlotCount SLOTS }
    ensures live { IfOk result (λ r. r.live ≡ live_in (cells_of framed.now.journal)) }
    ensures zero { IfOk result (λ r. r.zero ≡ zero_in (cells_of framed.now.journal) (range_with_len 1 framed.now.journal.history.ids)) }
    ensures differences { IfOk result (λ r. r.differences ≡ []) }
{
    let journal = framed.logged().journal();
    audit(alloc, journal.opening(), journal.history(), framed.frames())
}
