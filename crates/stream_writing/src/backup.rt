//! A backup of a store in which no transaction is active.
ghost use Rattle.std.specs.Prelude.{◌≡◌, ◌⊎◌, ◌≤◌, ◌<◌, ℕ, List, [], length, slice_index_or, true, false, None, IfErr, IsErrOf, OnOk};
ghost use Rattle.std.specs.Io.KnownBytes.{Appends};
ghost use Rattle.plain_model.specs.History.{end_of, least_active};
ghost use Rattle.disk_model.specs.Time.{LeavesOnlyImages};
ghost use Rattle.cell_page.specs.Format.{IsPage, AreTyped};
ghost use Rattle.core_store.specs.Limited.{is_past_limit};
ghost use Rattle.core_store.specs.Opening.{ArePages};
ghost use Rattle.core_store.specs.JournalView.{cells_of};
ghost use Rattle.logged_journal.specs.View.{OnlyTakesRoom, bytes_counted, history_of};
ghost use Rattle.logged_journal.specs.Opens.{OpensAfter};
ghost use Rattle.logged_journal.specs.Upkeep.{IsPastLogToTurn, FailsUpkeep};
ghost use Rattle.script_lines.specs.Output.{AppendsFront};
ghost use Rattle.stream_writing.specs.Base.{pages_in};
ghost use Rattle.stream_writing.specs.declared.backup_refusal.BackupRefusal.TheVariants.{Disk, LogFull, Memory, Write};
ghost use Rattle.stream_writing.specs.Backups.{IsBaseOf, HasTurned, HasSinkCause};

use crate::backup_refusal::BackupRefusal;
use crate::base::write_base;
use cell_page::first_id;
use core_store::Frame;
use disk_model::Disk;
use framed_journal::FramedJournal;
use logged_journal::Upkeep;
use outside_io::Sink;

/// Each number of a frame's page is in the range of its type.
fn know_page<const SLOTS: usize>(number: u16, frame: &Frame<SLOTS>)
    requires { IsPage number frame.now.page }
    ensures { AreTyped frame.now.page }
{
    // This call hands the fact out.
    let _first = frame.page.cell(first_id(number));
}

/// So is each number of all these pages.
fn know_pages<const SLOTS: usize>(frames: &[Frame<SLOTS>])
    requires few { length frames.now ≤ 1024 }
    requires pages { ArePages frames.now }
    ensures { (page : ℕ) → page < length frames.now → AreTyped (slice_index_or (pages_in frames.now) page []) }
{
    for number in 0..frames.len() {
        know_page(number as u16, &frames[number]);
    }
}

/// Makes a checkpoint of a store in which no transaction is active, so that its log begins anew with its first batch alone, and writes
/// the base of a stream: the number of pages in two bytes, and the pages of its cells. So what is written and the log from now on are a
/// stream of this store.
///
/// [`BackupRefusal::Disk`] comes only where the disk's count of faults rose in this call, and [`BackupRefusal::Write`] only where the
/// sink's did. [`BackupRefusal::LogFull`] comes just where the log with the images that a checkpoint needs would be longer than a log
/// may be, unless memory is out; the log has more bytes than its limit then. Nothing is written to the sink before the checkpoint was
/// made.
pub fn back_up<W: Sink, D: Disk, const SLOTS: usize>(
    store: &mut FramedJournal<SLOTS, D>,
    out: &mut W,
) -> Result<(), BackupRefusal>
    requires running { store.old.failed ≡ None }
    requires idle { least_active (end_of store.old.journal.history).state ≡ None }
    requires room { is_past_limit store.old.journal 1 ≡ false }
    ensures base { OnOk result ((bytes : List ℕ) × IsBaseOf SLOTS store.new.journal.history.ids (cells_of store.new.journal) bytes
        × Appends (W.written out.old) (W.written out.new) bytes) }
    ensures write { IsErrOf result Write → (bytes : List ℕ) × IsBaseOf SLOTS store.new.journal.history.ids (cells_of store.new.journal) bytes
        × AppendsFront (W.written out.old) (W.written out.new) bytes }
    ensures turned { OnOk result (HasTurned SLOTS D.may_leave store.old store.new) }
    ensures turned_too { IsErrOf result Write → HasTurned SLOTS D.may_leave store.old store.new }
    ensures failed { IsErrOf result Disk → FailsUpkeep D.faults store.old store.new }
    ensures full { IsErrOf result LogFull → IsPastLogToTurn SLOTS store.old × OnlyTakesRoom (record store.old { log_full = true }) store.new }
    ensures long { IsErrOf result LogFull → store.old.journal.limits.log < bytes_counted store.old }
    ensures only_full { IsPastLogToTurn SLOTS store.old → IsErrOf result LogFull ⊎ IsErrOf result Memory }
    ensures starved { IsErrOf result Memory → OnlyTakesRoom store.old store.new }
    ensures unwritten { IfErr result (λ e. (e ≡ Write) ⊎ (out.new ≡ out.old)) }
    ensures sink { HasSinkCause (W.faults out.old) (W.faults out.new) result }
    ensures disk_later { D.faults store.old.disk ≤ D.faults store.new.disk }
    ensures opens { LeavesOnlyImages D.moment D.left_since store.old.disk store.new.disk (OpensAfter SLOTS (history_of store.old)) }
{
    match store.turn() {
        Upkeep::Done => {
            let frames = store.frames();
            know_pages(frames);
            match write_base(frames, out) {
                Ok(()) => Ok(()),
                Err(_) => Err(BackupRefusal::Write),
            }
        }
        Upkeep::DiskFault => Err(BackupRefusal::Disk),
        Upkeep::LogFull => Err(BackupRefusal::LogFull),
        Upkeep::Memory => Err(BackupRefusal::Memory),
        Upkeep::Busy { .. } => unreachable!(),
        Upkeep::TraceFull => unreachable!(),
        Upkeep::Stopped { .. } => unreachable!(),
    }
}
