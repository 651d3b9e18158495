//! A store is opened.
ghost use Rattle.std.specs.Prelude.{◌≡◌, IfOk, IfErr};
ghost use Rattle.journal_opening.specs.Openings.{OpensAs, RefusesToOpen, OpensMeanwhile, HasFault};
ghost use Rattle.object_map.specs.Clients.{object_slots};

use crate::SLOTS;
use core_store::Limits;
use disk_model::Disk;
use journal_opening::open;
use shared_store::LoneStore;
use std::alloc::Global;
use store_opening::OpenRefusal;

/// The store that the disk holds. Where it isn't opened the disk is handed back.
pub(crate) fn open_store<D: Disk>(
    alloc: Global,
    disk: D,
) -> Result<LoneStore<SLOTS, D>, (OpenRefusal, D)>
    ensures opened { IfOk result (λ s. OpensAs D.content D.faults object_slots disk (record { trace = 1048576; log = 1071644672 }) s) }
    ensures opens_meanwhile { IfOk result (λ s. OpensMeanwhile D.content D.may_leave D.moment D.left_since object_slots disk s.disk) }
    ensures refused { IfErr result (λ e. RefusesToOpen D.content D.may_leave D.moment D.left_since object_slots disk e.0 e.1) }
    ensures meanwhile { IfErr result (λ e. OpensMeanwhile D.content D.may_leave D.moment D.left_since object_slots disk e.1) }
    ensures fault { IfErr result (λ e. HasFault (D.faults disk) (D.faults e.1) e.0) }
{
    let framed = match open(alloc, disk, Limits::GREATEST) {
        Ok(framed) => framed,
        Err(refused) => return Err(refused),
    };
    let (logged, frames) = framed.into_parts();
    match LoneStore::new(alloc, logged, frames) {
        Ok(store) => Ok(store),
        Err((logged, _)) => Err((OpenRefusal::Memory, logged.into_disk())),
    }
}
