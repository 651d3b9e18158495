//! The current log, written to a sink.
ghost use Rattle.std.specs.Prelude.{◌≡◌, ◌⊎◌, ℕ, List, [], OnOk, IsErrOf};
ghost use Rattle.std.specs.Io.KnownBytes.{Appends};
ghost use Rattle.disk_model.specs.Areas.{Bytes};
ghost use Rattle.cell_page.specs.Format.{IsSlotCount};
ghost use Rattle.script_lines.specs.Output.{AppendsFront};
ghost use Rattle.store_opening.specs.declared.open_refusal.OpenRefusal.{OpenRefusal};
ghost use Rattle.store_opening.specs.declared.open_refusal.OpenRefusal.TheVariants.{Disk};
ghost use Rattle.store_opening.specs.Looks.{IsLookedAt};
ghost use Rattle.store_opening.specs.Store.{Reads};
ghost use Rattle.current_log.specs.Current.{RefusesLog, IsOfLog};
ghost use Rattle.stream_writing.specs.declared.ship_refusal.ShipRefusal.TheVariants.{Unread, Write};
ghost use Rattle.stream_writing.specs.Shipped.{AreLogBytes, IsLogFront, HasShipCause};

use crate::copy::{CopyFault, copy_front};
use crate::ship_refusal::ShipRefusal;
use current_log::find_log;
use disk_model::Disk;
use outside_io::Sink;
use std::alloc::Global;
use store_opening::OpenRefusal;

/// Writes the bytes of the current log of the store that the disk holds, up to and with its first closed commit byte. The store
/// isn't opened: the log is found and tested by [`find_log`], and then copied in pieces of a fixed size. Nothing is written to the
/// disk.
///
/// [`ShipRefusal::Unread`] has the refusal of [`find_log`]; the sink was written nothing then, or, where it is
/// [`OpenRefusal::Disk`], a front of the log's bytes. [`ShipRefusal::Write`] comes only where the sink's count of faults rose in this
/// call, and the disk's refusal only where the disk's count did.
pub fn ship<D: Disk, W: Sink, const SLOTS: usize>(
    alloc: Global,
    disk: &mut D,
    out: &mut W,
) -> Result<(), ShipRefusal>
    requires count { IsSlotCount SLOTS }
    ensures done { OnOk result ((image : Bytes) → Reads D.content disk.old image
        → (bytes : List ℕ) × AreLogBytes SLOTS image bytes × Appends (W.written out.old) (W.written out.new) bytes) }
    ensures write { IsErrOf result Write → (image : Bytes) → Reads D.content disk.old image
        → (bytes : List ℕ) × AreLogBytes SLOTS image bytes × AppendsFront (W.written out.old) (W.written out.new) bytes }
    ensures refused { (e : OpenRefusal) → IsErrOf result (Unread e) → (image : Bytes) → Reads D.content disk.old image → RefusesLog SLOTS image e }
    ensures of_log { (e : OpenRefusal) → IsErrOf result (Unread e) → IsOfLog e }
    ensures unwritten { (e : OpenRefusal) → IsErrOf result (Unread e) → (e ≡ Disk) ⊎ Appends (W.written out.old) (W.written out.new) [] }
    ensures cut { IsErrOf result (Unread Disk) → («front» : List ℕ) × Appends (W.written out.old) (W.written out.new) «front»
        × ((image : Bytes) → Reads D.content disk.old image → IsLogFront SLOTS image «front») }
    ensures looks { IsLookedAt D.content D.may_leave D.moment D.left_since disk.old disk.new }
    ensures cause { HasShipCause (D.faults disk.old) (D.faults disk.new) (W.faults out.old) (W.faults out.new) result }
{
    let found = match find_log::<D, SLOTS>(alloc, disk) {
        Ok(found) => found,
        Err(refusal) => return Err(ShipRefusal::Unread(refusal)),
    };
    match copy_front(disk, found.area, found.len, out) {
        Ok(()) => Ok(()),
        Err(CopyFault::Disk) => Err(ShipRefusal::Unread(OpenRefusal::Disk)),
        Err(CopyFault::Write) => Err(ShipRefusal::Write),
    }
}
