//! Steps of an abort.
ghost use Rattle.std.specs.Prelude.{◌≡◌, ◌↔◌, ℕ, [], true, None, IsSome};
ghost use Rattle.logged_journal.specs.View.{LoggedView};
ghost use Rattle.shared_store.specs.Chronicles.Since.{OpensSince};
ghost use Rattle.shared_store.specs.Chronicles.View.{has_transaction, notes_of};
ghost use Rattle.shared_store.specs.Acts.{Acts};
ghost use Rattle.shared_store.specs.Calls.{GoesOnAs, DoesStepOn, MakesStep, entered_by_step, marked_by_step, found_by_step, refused_by_step, has_after_step};
ghost use Rattle.shared_store.specs.Holding.{HasJournal};

use crate::answers::StepRefusal;
use crate::chronicle::JournalChronicle;
use crate::counting::count_disk;
use crate::pass::Pass;
use crate::refused::Refused;
use crate::store::Store;
use core_store::{AbortStep, Frame, Three};
use disk_model::Disk;
use latch_table::{Held, Hold};
use logged_journal::Stopped;

/// The answer of a step of an abort where another pass has a word.
fn again(found: Held) -> StepRefusal
    ensures { result ≡ StepRefusal.Again found.word found.seat }
{
    StepRefusal::Again {
        word: found.word,
        seat: found.seat,
    }
}

/// Counts the answer.
fn count_step(refused: &mut Refused, step: &Result<AbortStep, StepRefusal>)
    ensures { refused.new ≡ refused_by_step step.now refused.old }
{
    match step {
        Ok(_) => {}
        Err(StepRefusal::Again { .. }) => {}
        Err(StepRefusal::Stopped { .. }) => count_disk(refused),
    }
}

/// Whether the client has a transaction after this step, which had one or not before.
fn has_after(step: &Result<AbortStep, StepRefusal>, had: bool) -> bool
    ensures { result ≡ has_after_step step.now had }
{
    match step {
        Ok(AbortStep::Ended) => false,
        Ok(AbortStep::Undone) => had,
        Err(_) => had,
    }
}

/// Whether the step entered the history.
fn is_entered(step: &Result<AbortStep, StepRefusal>) -> bool
    ensures { (client : ℕ) → (result ≡ true) ↔ IsSome (entered_by_step client step.now) }
{
    match step {
        Ok(AbortStep::Undone | AbortStep::Ended) => true,
        Err(_) => false,
    }
}

impl<const SLOTS: usize, D: Disk> Store<SLOTS, D> {
    /// The step on the journal, where the pass has the log word.
    fn act_abort_step(
        &self,
        hold: &mut Hold<JournalChronicle<SLOTS, D>, Frame<SLOTS>>,
        journal: &mut JournalChronicle<SLOTS, D>,
        held: &mut Three<SLOTS>,
        client: u8,
    ) -> Result<AbortStep, StepRefusal>
        requires of { hold.old.table ≡ self.now.table }
        requires journal { HasJournal SLOTS self.now.pages hold.old.view journal.old }
        requires none { (held.old ≡ []) × (hold.old.view.hands.pages ≡ []) }
        requires active { has_transaction (notes_of journal.old) client ≡ true }
        ensures of { hold.new.table ≡ self.now.table }
        ensures acts { Acts SLOTS hold.old.view hold.new.view journal.old journal.new held.new (entered_by_step client result) (marked_by_step result) (found_by_step result) }
        ensures made { found_by_step result ≡ None → DoesStepOn SLOTS journal.old journal.new client result }
        ensures since { (began : LoggedView D) → OpensSince D.moment D.left_since SLOTS began journal.old → OpensSince D.moment D.left_since SLOTS began journal.new }
    {
        let _ = &self.latches;
        journal.know_history();
        if let Some(failed) = journal.logged().failed() {
            return Err(StepRefusal::Stopped {
                faults: failed.faults,
            });
        }
        let work = journal.logged().journal().undo_work(client);
        if let Err(found) = self.claim_for_work(hold, journal, work, held) {
            return Err(again(found));
        }
        let step = journal.abort_step(held, client);
        journal.know_history();
        match step {
            Ok(step) => Ok(step),
            Err(Stopped { faults }) => Err(StepRefusal::Stopped { faults }),
        }
    }

    /// Undoes the last write of the client's transaction that isn't undone, or ends the transaction where none is left. It takes
    /// no memory, and doesn't wait.
    pub fn abort_step(&self, pass: &mut Pass<SLOTS, D>) -> Result<AbortStep, StepRefusal>
        requires of { pass.old.table ≡ self.now.table }
        requires active { pass.old.view.knowledge.truth ≡ true }
        ensures of { pass.new.table ≡ self.now.table }
        ensures knows { GoesOnAs pass.old.view pass.new.view (entered_by_step pass.old.view.station.name result) (found_by_step result) }
        ensures refused { pass.new.refused ≡ refused_by_step result pass.old.refused }
        ensures made { found_by_step result ≡ None → MakesStep D SLOTS pass.old.view pass.new.view result }
    {
        let mut journal = match self.latches.claim_log(&mut pass.hold) {
            Ok(journal) => journal,
            Err(found) => return Err(again(found)),
        };
        let mut held = Three::new();
        let step = self.act_abort_step(&mut pass.hold, &mut journal, &mut held, pass.number);
        count_step(&mut pass.refused, &step);
        pass.has_txn = has_after(&step, pass.has_txn);
        let entered = is_entered(&step);
        pass.seen = self.finish(&mut pass.hold, journal, &mut held, entered, pass.seen);
        step
    }
}
