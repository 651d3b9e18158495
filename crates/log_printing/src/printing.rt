//! The current log as text, written to a sink.
ghost use Rattle.std.specs.Prelude.{◌≡◌, ◌⊎◌, ℕ, List, [], OnOk, IsErrOf};
ghost use Rattle.std.specs.Io.KnownBytes.{Appends};
ghost use Rattle.disk_model.specs.Areas.{Bytes};
ghost use Rattle.cell_page.specs.Format.{IsSlotCount};
ghost use Rattle.script_lines.specs.Output.{AppendsFront};
ghost use Rattle.store_opening.specs.declared.open_refusal.OpenRefusal.{OpenRefusal as Refusal};
ghost use Rattle.store_opening.specs.Looks.{IsLookedAt};
ghost use Rattle.store_opening.specs.Store.{Reads};
ghost use Rattle.gate_log.specs.State.{IsLogArea};
ghost use Rattle.current_log.specs.Current.{RefusesLog, IsOfLog, damaged_in};
ghost use Rattle.log_printing.specs.declared.refusal.PrintRefusal.TheVariants.{Unread, Write};
ghost use Rattle.log_printing.specs.Printed.{IsLogText, IsCutText, HasPrintCause};

use crate::refusal::PrintRefusal;
use crate::walking::{WalkFault, print_records};
use current_log::find_log;
use disk_model::{Area, Disk};
use outside_io::Sink;
use std::alloc::Global;
use store_opening::{OpenRefusal, Place};

/// The refusal of a log in this area at this place.
fn damaged(area: Area, at: u64) -> OpenRefusal
    ensures value { result ≡ damaged_in area at }
    ensures of_log { IsOfLog result }
{
    match area {
        Area::LogA => OpenRefusal::Damaged {
            place: Place::LogA,
            at,
        },
        _ => OpenRefusal::Damaged {
            place: Place::LogB,
            at,
        },
    }
}

/// Writes the current log of the store that the disk holds as text: a line for each record, which has its offset in the log area,
/// its name and its fields. The store isn't opened: the whole log is found and tested by [`find_log`] first, and then read again in
/// pieces of a fixed size. Nothing is written to the disk.
///
/// [`PrintRefusal::Unread`] has the refusal of [`find_log`], and nothing was written then. Where it is [`OpenRefusal::Disk`], some
/// front of the text may have been. Where the disk doesn't tell what it reads, its bytes may have changed since they were tested: then
/// [`OpenRefusal::Damaged`] comes after some lines. [`PrintRefusal::Write`] comes only where the sink's count of faults rose in this
/// call, and the disk's refusal only where the disk's count did.
pub fn print_log<D: Disk, W: Sink, const SLOTS: usize>(
    alloc: Global,
    disk: &mut D,
    out: &mut W,
) -> Result<(), PrintRefusal>
    requires count { IsSlotCount SLOTS }
    ensures done { OnOk result ((image : Bytes) → Reads D.content disk.old image
        → (text : List ℕ) × IsLogText SLOTS image text × Appends (W.written out.old) (W.written out.new) text) }
    ensures write { IsErrOf result Write → (image : Bytes) → Reads D.content disk.old image
        → (text : List ℕ) × IsLogText SLOTS image text × AppendsFront (W.written out.old) (W.written out.new) text }
    ensures refused { (e : Refusal) → IsErrOf result (Unread e) → (image : Bytes) → Reads D.content disk.old image → RefusesLog SLOTS image e }
    ensures of_log { (e : Refusal) → IsErrOf result (Unread e) → IsOfLog e }
    ensures cut { (e : Refusal) → IsErrOf result (Unread e) → IsCutText D.content SLOTS disk.old e (W.written out.old) (W.written out.new) }
    ensures looks { IsLookedAt D.content D.may_leave D.moment D.left_since disk.old disk.new }
    ensures cause { HasPrintCause (D.faults disk.old) (D.faults disk.new) (W.faults out.old) (W.faults out.new) result }
{
    let found = match find_log::<D, SLOTS>(alloc, disk) {
        Ok(found) => found,
        Err(refusal) => return Err(PrintRefusal::Unread(refusal)),
    };
    match print_records::<D, W, SLOTS>(disk, found, out) {
        Ok(()) => Ok(()),
        Err(WalkFault::Disk) => Err(PrintRefusal::Unread(OpenRefusal::Disk)),
        Err(WalkFault::Write) => Err(PrintRefusal::Write),
        Err(WalkFault::Changed { at }) => Err(PrintRefusal::Unread(damaged(found.area, at))),
    }
}
