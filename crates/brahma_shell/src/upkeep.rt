//! The lines `clean` and `turn`.
ghost use Rattle.std.specs.Prelude.{◌≡◌, ◌⊎◌, ◌*◌, ◌<◌, ◌≤◌, List, [], None, OnOk, IfErr, IsErrOf, ℕ};
ghost use Rattle.std.specs.Io.KnownBytes.{Appends};
ghost use Rattle.disk_model.specs.Causes.{Rose};
ghost use Rattle.brahma_shell.specs.Log.{StaysRunning};
ghost use Rattle.brahma_shell.specs.Replay.{Performs, IsUpkeepDone, StopsCall, StopsPerform, LeavesLog, FailsUpkeep, FailsPerform};

use crate::replay::{Stop, print};
use crate::store::Store;
use disk_model::Disk;
use logged_journal::Upkeep;
use outside_io::Sink;
use script_lines::{Line, turn_busy_line};

/// Writes the page in place. Nothing is printed.
#[inline(never)]
pub(crate) fn clean<D: Disk>(store: &mut Store<D>, page: u16) -> Result<(), Stop>
    requires page { 8 * page < store.old.journal.history.ids }
    requires running { store.old.failed ≡ None }
    ensures ok { OnOk result (Performs store.old.journal store.new.journal (Line.Clean page) []) }
    ensures goes_on { OnOk result (StaysRunning D.faults store.old store.new) }
    ensures done { OnOk result (IsUpkeepDone D.may_leave (Line.Clean page) store.old store.new) }
    ensures err { IfErr result (λ s.
        StopsCall s store.old.journal store.new.journal × LeavesLog D.faults s store.old store.new
        ⊎ FailsUpkeep D.faults s store.old store.new) }
{
    match store.clean(page) {
        Upkeep::Done => Ok(()),
        Upkeep::TraceFull => Err(Stop::Full),
        Upkeep::LogFull => Err(Stop::LogFull),
        Upkeep::Memory => Err(Stop::Memory),
        Upkeep::DiskFault => Err(Stop::UpkeepFault),
        Upkeep::Busy { .. } => Err(Stop::Stopped),
        Upkeep::Stopped { .. } => Err(Stop::Stopped),
    }
}

/// Makes a checkpoint. It is refused where a client has a transaction; then the least such client is printed.
#[inline(never)]
pub(crate) fn turn<W: Sink, D: Disk>(store: &mut Store<D>, out: &mut W) -> Result<(), Stop>
    requires running { store.old.failed ≡ None }
    ensures ok { OnOk result ((text : List ℕ) × Performs store.old.journal store.new.journal Line.Turn text
        × Appends (W.written out.old) (W.written out.new) text) }
    ensures goes_on { OnOk result (StaysRunning D.faults store.old store.new) }
    ensures done { OnOk result (IsUpkeepDone D.may_leave Line.Turn store.old store.new) }
    ensures stopped { IfErr result (λ s.
        StopsPerform s Line.Turn store.old.journal store.new.journal (W.written out.old) (W.written out.new)
        × LeavesLog D.faults s store.old store.new
        ⊎ FailsPerform D.faults s Line.Turn store.old store.new (W.written out.old) (W.written out.new)) }
    ensures write { IsErrOf result Stop.Write → Rose (W.faults out.old) (W.faults out.new) }
    ensures later { W.faults out.old ≤ W.faults out.new }
{
    // The entries of the notes are those of the history: this call hands the fact out.
    let _ = store.history();
    match store.turn() {
        Upkeep::Done => Ok(()),
        Upkeep::Busy { pass } => print(out, turn_busy_line(pass).as_str().as_bytes()),
        Upkeep::TraceFull => Err(Stop::Full),
        Upkeep::LogFull => Err(Stop::LogFull),
        Upkeep::Memory => Err(Stop::Memory),
        Upkeep::DiskFault => Err(Stop::UpkeepFault),
        Upkeep::Stopped { .. } => Err(Stop::Stopped),
    }
}
