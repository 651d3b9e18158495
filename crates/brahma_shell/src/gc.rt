//! The lines `gc step` and `gc all`.
ghost use Rattle.std.specs.Prelude.{◌≡◌, ◌+◌, ◌≤◌, ℕ, List, None, IfOk, OnOk, IfErr, IsErrOf};
ghost use Rattle.std.specs.Io.KnownBytes.{Appends};
ghost use Rattle.disk_model.specs.Causes.{Rose};
ghost use Rattle.brahma_shell.specs.Log.{StaysRunning};
ghost use Rattle.brahma_shell.specs.Replay.{StepsOnce, Performs, StopsPerform, LeavesLog};

use crate::replay::Stop;
use crate::store::Store;
use crate::telling::print_deletion;
use core_store::Collect;
use disk_model::Disk;
use logged_journal::CollectRefusal;
use outside_io::Sink;
use script_lines::Line;

/// A step of the collector that was made.
#[derive(Clone, Copy, PartialEq, Eq, Debug)]
pub(crate) struct Stepped {
    /// Whether it took an object out of the queue.
    pub(crate) popped: bool,
    /// How much work is left in the open round, and 0 where none is open.
    pub(crate) left: u64,
}

/// Makes a step of the collector, and prints what it deletes. `None` where there is nothing to do.
#[inline(always)]
fn collect_step<W: Sink, D: Disk>(
    store: &mut Store<D>,
    out: &mut W,
) -> Result<Option<Stepped>, Stop>
    requires running { store.old.failed ≡ None }
    ensures ok { IfOk result (λ s. (text : List ℕ) × StepsOnce s store.old.journal store.new.journal text
        × Appends (W.written out.old) (W.written out.new) text) }
    ensures goes_on { IfOk result (λ _. StaysRunning D.faults store.old store.new) }
    ensures stopped { IfErr result (λ s.
        StopsPerform s Line.CollectStep store.old.journal store.new.journal (W.written out.old) (W.written out.new)
        × LeavesLog D.faults s store.old store.new) }
    ensures write { IsErrOf result Stop.Write → Rose (W.faults out.old) (W.faults out.new) }
    ensures later { W.faults out.old ≤ W.faults out.new }
{
    match store.collect_step() {
        Ok(Collect::Idle) => Ok(None),
        Ok(Collect::Did { popped, left }) => Ok(Some(Stepped { popped, left })),
        Ok(Collect::Deleted { id, left }) => {
            print_deletion(out, id)?;
            Ok(Some(Stepped {
                popped: false,
                left,
            }))
        }
        Ok(Collect::TraceFull) => Err(Stop::Full),
        Ok(Collect::Memory) => Err(Stop::Memory),
        Err(CollectRefusal::LogFull) => Err(Stop::LogFull),
        Err(CollectRefusal::Stopped { .. }) => Err(Stop::Stopped),
    }
}

/// Makes one step of the collector, where there is something to do, and prints what it deletes.
#[inline(never)]
pub(crate) fn step<W: Sink, D: Disk>(store: &mut Store<D>, out: &mut W) -> Result<(), Stop>
    requires running { store.old.failed ≡ None }
    ensures ok { OnOk result ((text : List ℕ) × Performs store.old.journal store.new.journal Line.CollectStep text
        × Appends (W.written out.old) (W.written out.new) text) }
    ensures goes_on { OnOk result (StaysRunning D.faults store.old store.new) }
    ensures stopped { IfErr result (λ s.
        StopsPerform s Line.CollectStep store.old.journal store.new.journal (W.written out.old) (W.written out.new)
        × LeavesLog D.faults s store.old store.new) }
    ensures write { IsErrOf result Stop.Write → Rose (W.faults out.old) (W.faults out.new) }
    ensures later { W.faults out.old ≤ W.faults out.new }
{
    match collect_step(store, out) {
        Ok(_) => Ok(()),
        Err(stop) => Err(stop),
    }
}

/// Makes steps of the collector until there is nothing to do, or until no round is open and it has taken as many objects
/// out of its queue as the store has ids. Prints what they delete.
#[inline(never)]
pub(crate) fn collect_all<W: Sink, D: Disk>(store: &mut Store<D>, out: &mut W) -> Result<(), Stop>
    requires running { store.old.failed ≡ None }
    ensures ok { OnOk result ((text : List ℕ) × Performs store.old.journal store.new.journal Line.CollectAll text
        × Appends (W.written out.old) (W.written out.new) text) }
    ensures goes_on { OnOk result (StaysRunning D.faults store.old store.new) }
    ensures stopped { IfErr result (λ s.
        StopsPerform s Line.CollectAll store.old.journal store.new.journal (W.written out.old) (W.written out.new)
        × LeavesLog D.faults s store.old store.new) }
    ensures write { IsErrOf result Stop.Write → Rose (W.faults out.old) (W.faults out.new) }
    ensures later { W.faults out.old ≤ W.faults out.new }
{
    let ids = store.ids();
    let mut popped = 0;
    'steps: loop {
        let Some(step) = collect_step(store, out)? else {
            return Ok(());
        };
        if step.popped {
            popped += 1;
        }
        if step.left == 0 && popped >= ids {
            return Ok(());
        }
    }
}
