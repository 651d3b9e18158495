//! The collector and checkpoints at the store below, where no transaction is open.
ghost use Rattle.std.specs.Prelude.{◌≡◌, true, false, None, Ok, IfOk, IfErr, OnOk};
ghost use Rattle.plain_model.specs.History.{end_of, SameReachable};
ghost use Rattle.disk_model.specs.Time.{LeavesOnlyImages};
ghost use Rattle.disk_model.specs.Told.{EachImage};
ghost use Rattle.restart_laws.specs.Settled.{IsSettled};
ghost use Rattle.object_store.specs.Seen.{state_of, IsQuiet};
ghost use Rattle.object_store.specs.Upkeep.{MakesEvents, MakesUpTo, MakesShort, IsShortToCollect, OnlyRemoves, waiting_in, IsExact, TurnsLog, TurnsNot, OpensToReach};

use crate::SLOTS;
use crate::error::StoreError;
use core_store::Collect;
use disk_model::Disk;
use framed_journal::FramedJournal;
use logged_journal::{CollectRefusal, Upkeep};

/// How many objects wait for the collector.
pub(crate) fn waiting<D: Disk>(below: &FramedJournal<SLOTS, D>) -> u32
    ensures count { result ≡ waiting_in below.now }

    // Where none waits, and no transaction is open, just the objects are stored that the root reaches.
    ensures exact { result ≡ 0 → IsQuiet (state_of below.now) → IsExact below.now }
{
    below.logged().journal().queue_len()
}

/// Hands out what is known: what the root reaches in the committed graph is as it was after the last commit, and whatever a power loss
/// leaves of the disk opens to a graph in which it reaches the same.
fn know<D: Disk>(below: &FramedJournal<SLOTS, D>)
    ensures settled { IsSettled (end_of below.now.journal.history) }
{
    // What the history is: this call hands the fact out.
    let _ = below.logged().journal().history();
}

/// Makes an event of the collector, and tells whether there was one to make.
fn collect_once<D: Disk>(below: &mut FramedJournal<SLOTS, D>) -> Result<bool, StoreError>
    requires running { below.old.failed ≡ None }
    requires quiet { IsQuiet (state_of below.old) }
    ensures made { result ≡ Ok true → MakesEvents 1 below.old below.new }
    ensures idle { result ≡ Ok false → MakesEvents 0 below.old below.new }
    ensures rest { result ≡ Ok false → waiting_in below.new ≡ 0 }
    ensures refused { IfErr result (λ why. MakesEvents 0 below.old below.new) }
    ensures cause { IfErr result (λ why. IsShortToCollect why below.new) }
{
    match below.collect_step() {
        Ok(Collect::Idle) => Ok(false),
        Ok(Collect::Did { .. }) => Ok(true),
        Ok(Collect::Deleted { .. }) => Ok(true),
        Ok(Collect::TraceFull) => Err(StoreError::HistoryFull),
        Ok(Collect::Memory) => Err(StoreError::Memory),
        Err(CollectRefusal::LogFull) => Err(StoreError::LogFull),
        Err(CollectRefusal::Stopped { .. }) => unreachable!(),
    }
}

/// Makes so many events of the collector, or as many as there are to make, and tells how many objects wait then.
fn collect_some<D: Disk>(below: &mut FramedJournal<SLOTS, D>, steps: u32) -> Result<u32, StoreError>
    requires running { below.old.failed ≡ None }
    requires quiet { IsQuiet (state_of below.old) }
    ensures makes { IfOk result (λ left. MakesUpTo steps left below.old below.new) }
    ensures waiting { IfOk result (λ left. left ≡ waiting_in below.new) }
    ensures exact { result ≡ Ok 0 → IsExact below.new }
    ensures short { IfErr result (λ why. MakesShort steps why below.old below.new) }
{
    'steps: for made in 0..steps {
        match collect_once(below) {
            Ok(true) => {}
            Ok(false) => return Ok(waiting(below)),
            Err(why) => return Err(why),
        }
    }
    Ok(waiting(below))
}

/// The same. What the root reaches in the committed graph is as before.
pub(crate) fn collect<D: Disk>(
    below: &mut FramedJournal<SLOTS, D>,
    steps: u32,
) -> Result<u32, StoreError>
    requires running { below.old.failed ≡ None }
    requires quiet { IsQuiet (state_of below.old) }
    ensures makes { IfOk result (λ left. MakesUpTo steps left below.old below.new) }
    ensures waiting { IfOk result (λ left. left ≡ waiting_in below.new) }
    ensures exact { result ≡ Ok 0 → IsExact below.new }
    ensures short { IfErr result (λ why. MakesShort steps why below.old below.new) }
    ensures reach { SameReachable (state_of below.new).committed (state_of below.old).committed }
{
    know(below);
    let left = collect_some(below, steps);
    know(below);
    left
}

/// Turns the log.
pub(crate) fn turn<D: Disk>(below: &mut FramedJournal<SLOTS, D>) -> Result<(), StoreError>
    requires running { below.old.failed ≡ None }
    requires quiet { IsQuiet (state_of below.old) }
    ensures turns { OnOk result (TurnsLog D.may_leave below.old below.new) }
    ensures fails { IfErr result (λ why. TurnsNot D.faults why below.old below.new) }
    ensures opens { LeavesOnlyImages D.moment D.left_since below.old.disk below.new.disk (OpensToReach (state_of below.old).committed) }
{
    // What the history is: this call hands the fact out.
    let _ = below.logged().journal().history();
    match below.turn() {
        Upkeep::Done => Ok(()),
        Upkeep::DiskFault => Err(StoreError::Disk),
        Upkeep::TraceFull => Err(StoreError::HistoryFull),
        Upkeep::LogFull => Err(StoreError::LogFull),
        Upkeep::Memory => Err(StoreError::Memory),
        Upkeep::Busy { .. } => unreachable!(),
        Upkeep::Stopped { .. } => unreachable!(),
    }
}
