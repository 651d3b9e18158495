//! Steps of the collector.
ghost use Rattle.std.specs.Prelude.{◌≡◌, ◌≢◌, ◌↔◌, ℕ, [], ◌∷◌, ◌++◌, true, None, IsSome};
ghost use Rattle.logged_journal.specs.View.{LoggedView};
ghost use Rattle.shared_store.specs.Chronicles.Since.{OpensSince};
ghost use Rattle.shared_store.specs.Acts.{Acts};
ghost use Rattle.shared_store.specs.Calls.{GoesOnAs, DoesCollectOn, MakesCollect, entered_by_collecting, marked_by_collecting, found_by_collecting, refused_by_collecting};
ghost use Rattle.shared_store.specs.Holding.{HasJournal};

use crate::answers::CollectRefusal;
use crate::chronicle::JournalChronicle;
use crate::counting::{count_disk, count_log, count_trace};
use crate::pass::Pass;
use crate::refused::Refused;
use crate::store::Store;
use core_store::{Act, Collect, Frame, Note, Three};
use disk_model::Disk;
use latch_table::{Held, Hold};

/// The answer where another pass has a word.
fn again(found: Held) -> CollectRefusal
    ensures { result ≡ CollectRefusal.Again found.word found.seat }
{
    CollectRefusal::Again {
        word: found.word,
        seat: found.seat,
    }
}

/// Counts the answer.
fn count_step(refused: &mut Refused, step: &Result<Collect, CollectRefusal>)
    ensures { refused.new ≡ refused_by_collecting step.now refused.old }
{
    match step {
        Ok(Collect::TraceFull) => count_trace(refused),
        Err(CollectRefusal::Stopped { .. }) => count_disk(refused),
        Err(CollectRefusal::LogFull) => count_log(refused),
        _ => {}
    }
}

/// Whether a step with this answer entered the history.
fn is_entered(step: &Result<Collect, CollectRefusal>) -> bool
    ensures { (result ≡ true) ↔ IsSome (entered_by_collecting step.now) }
{
    match step {
        Ok(Collect::Did { .. } | Collect::Deleted { .. }) => true,
        Ok(Collect::TraceFull | Collect::Idle | Collect::Memory) => false,
        Err(_) => false,
    }
}

impl<const SLOTS: usize, D: Disk> Store<SLOTS, D> {
    /// The step on the journal, where the pass has the log word.
    fn act_collect_step(
        &self,
        hold: &mut Hold<JournalChronicle<SLOTS, D>, Frame<SLOTS>>,
        journal: &mut JournalChronicle<SLOTS, D>,
        held: &mut Three<SLOTS>,
    ) -> Result<Collect, CollectRefusal>
        requires of { hold.old.table ≡ self.now.table }
        requires journal { HasJournal SLOTS self.now.pages hold.old.view journal.old }
        requires none { (held.old ≡ []) × (hold.old.view.hands.pages ≡ []) }
        ensures of { hold.new.table ≡ self.now.table }
        ensures acts { Acts SLOTS hold.old.view hold.new.view journal.old journal.new held.new (entered_by_collecting result) (marked_by_collecting result) (found_by_collecting result) }
        ensures made { found_by_collecting result ≡ None → DoesCollectOn SLOTS journal.old journal.new result }
        ensures since { (began : LoggedView D) → OpensSince D.moment D.left_since SLOTS began journal.old → OpensSince D.moment D.left_since SLOTS began journal.new }
    {
        journal.know_history();
        let _ = journal.logged().journal().history();
        if let Some(failed) = journal.logged().failed() {
            return Err(CollectRefusal::Stopped {
                faults: failed.faults,
            });
        }
        if let Err(found) = self.claim_for_collector(hold, journal, held) {
            return Err(again(found));
        }
        let step = journal.collect_step(held);
        journal.know_history();
        match step {
            Ok(step) => Ok(step),
            Err(logged_journal::CollectRefusal::Stopped { faults }) => {
                Err(CollectRefusal::Stopped { faults })
            }
            Err(logged_journal::CollectRefusal::LogFull) => Err(CollectRefusal::LogFull),
        }
    }

    /// Makes one event of the collector, and tells what it did. It doesn't wait.
    pub fn collect_step(&self, pass: &mut Pass<SLOTS, D>) -> Result<Collect, CollectRefusal>
        requires of { pass.old.table ≡ self.now.table }
        ensures of { pass.new.table ≡ self.now.table }
        ensures knows { GoesOnAs pass.old.view pass.new.view (entered_by_collecting result) (found_by_collecting result) }
        ensures refused { pass.new.refused ≡ refused_by_collecting result pass.old.refused }
        ensures made { found_by_collecting result ≡ None → MakesCollect D SLOTS pass.old.view pass.new.view result }

        // What the pass keeps besides is a note of one of the collector's events.
        ensures act { (kept : ℕ × Note) → pass.new.view.knowledge.entries ≡ pass.old.view.knowledge.entries ++ kept ∷ [] → kept.1.act ≢ Act.Other }
    {
        let mut journal = match self.latches.claim_log(&mut pass.hold) {
            Ok(journal) => journal,
            Err(found) => return Err(again(found)),
        };
        let mut held = Three::new();
        let step = self.act_collect_step(&mut pass.hold, &mut journal, &mut held);
        count_step(&mut pass.refused, &step);
        let entered = is_entered(&step);
        pass.seen = self.finish(&mut pass.hold, journal, &mut held, entered, pass.seen);
        step
    }
}
