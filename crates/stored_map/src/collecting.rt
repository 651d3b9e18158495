//! The collector beside no transaction.
ghost use Rattle.std.specs.Prelude.{◌≡◌, ◌<◌, true, false, Ok, OnOk, IfErr};
ghost use Rattle.stored_map.specs.Stores.{IsQuiet};
ghost use Rattle.stored_map.specs.Steps.{IsMarkedBy, Collects, IsExact, entries_left};

use crate::SLOTS;
use core_store::Collect;
use disk_model::Disk;
use logged_journal::CollectRefusal;
use map_calls::Failure;
use shared_store::LoneStore;

/// Makes a step of the collector, and tells whether there was something to do. Where there was nothing, just the objects are stored that
/// the root reaches.
fn collect_once<D: Disk>(store: &mut LoneStore<SLOTS, D>) -> Result<bool, Failure>
    requires quiet { IsQuiet store.old }
    ensures collects { Collects store.old store.new }
    ensures quiet { OnOk result (IsQuiet store.new) }
    ensures fewer { result ≡ Ok true → entries_left store.new < entries_left store.old }
    ensures exact { result ≡ Ok false → IsExact store.new }
    ensures marked { IfErr result (λ f. IsMarkedBy f store.new) }
    ensures no_disk { IfErr result (λ f. f ≡ Failure.Disk → ⊥) }
{
    match store.collect_step() {
        Ok(Collect::Idle) => {
            // Where nothing waits for the collector, just what is reached is stored: this call hands the fact out.
            let _ = store.logged().journal().queue_len();
            Ok(false)
        }
        Ok(Collect::Did { .. }) => Ok(true),
        Ok(Collect::Deleted { .. }) => Ok(true),
        Ok(Collect::TraceFull) => Err(Failure::HistoryFull),
        Ok(Collect::Memory) => Err(Failure::Memory),
        Err(CollectRefusal::LogFull) => Err(Failure::LogFull),
        Err(CollectRefusal::Stopped { .. }) => unreachable!(),
    }
}

/// Makes steps of the collector until there is nothing to do: then just the objects are stored that the root reaches.
pub(crate) fn collect<D: Disk>(store: &mut LoneStore<SLOTS, D>) -> Result<(), Failure>
    requires quiet { IsQuiet store.old }
    ensures collects { Collects store.old store.new }
    ensures quiet { OnOk result (IsQuiet store.new) }
    ensures exact { OnOk result (IsExact store.new) }
    ensures marked { IfErr result (λ f. IsMarkedBy f store.new) }
    ensures no_disk { IfErr result (λ f. f ≡ Failure.Disk → ⊥) }
{
    'steps: loop {
        match collect_once(store) {
            Ok(true) => {}
            Ok(false) => return Ok(()),
            Err(failure) => return Err(failure),
        }
    }
}
