//! The calls of a client.
ghost use Rattle.std.specs.Prelude.{◌≡◌, ◌⊎◌, ◌↔◌, ℕ, Contains, [], true, false, unwrap_or, None, IfSome, IsSome};
ghost use Rattle.disk_model.specs.Causes.{Rose};
ghost use Rattle.disk_model.specs.Time.{LeavesOnlyImages};
ghost use Rattle.plain_model.specs.Machine.{IsInRange};
ghost use Rattle.core_store.specs.Limited.{pages_for_call};
ghost use Rattle.logged_journal.specs.Opens.{OpensDuring};
ghost use Rattle.logged_journal.specs.View.{LoggedView};
ghost use Rattle.logged_journal.specs.Calls.{OnlyForces};
ghost use Rattle.shared_store.specs.Chronicles.Clients.{begins_or_ends};
ghost use Rattle.shared_store.specs.Chronicles.Since.{OpensSince};
ghost use Rattle.shared_store.specs.Chronicles.Steps.{entered_by_call, marked_by_call};
ghost use Rattle.shared_store.specs.Chronicles.View.{has_transaction, notes_of};
ghost use Rattle.shared_store.specs.Passes.{IsClient};
ghost use Rattle.shared_store.specs.Acts.{Acts};
ghost use Rattle.shared_store.specs.Calls.{GoesOnAs, DoesCallOn, MakesCall, NeedsPage, WasNoted, found_by_call, refused_by_call};
ghost use Rattle.shared_store.specs.Holding.{HasJournal};

use crate::chronicle::JournalChronicle;
use crate::counting::count_call;
use crate::pass::Pass;
use crate::store::Store;
use core_store::{Frame, Three};
use disk_model::Disk;
use latch_table::{Held, Hold};
use plain_model::{Call, Reply};

/// The answer where another pass has a word.
fn again(found: Held) -> Reply
    ensures { result ≡ Reply.Again found.word found.seat }
{
    Reply::Again {
        word: found.word,
        seat: found.seat,
    }
}

/// Whether a call with this answer entered the history.
fn is_entered(reply: &Reply) -> bool
    ensures { (client : ℕ) (call : Call) → (result ≡ true) ↔ IsSome (entered_by_call client call reply.now) }
{
    match reply {
        Reply::Again { .. }
        | Reply::Stopped { .. }
        | Reply::TraceFull
        | Reply::Memory
        | Reply::LogFull => false,
        _ => true,
    }
}

/// Whether the client has a transaction after its call, if that entered the history with this answer.
fn has_after(entered: bool, call: &Call, reply: &Reply, had: bool) -> bool
    ensures entered { entered ≡ true → result ≡ unwrap_or (begins_or_ends call.now reply.now) had }
    ensures same { entered ≡ false → result ≡ had }
{
    if !entered {
        return had;
    }
    match call {
        Call::Begin => match reply {
            Reply::Done => true,
            _ => had,
        },
        Call::Commit => match reply {
            Reply::Done | Reply::DiskFault => false,
            _ => had,
        },
        Call::Abort => match reply {
            Reply::Done => false,
            _ => had,
        },
        _ => had,
    }
}

impl<const SLOTS: usize, D: Disk> Store<SLOTS, D> {
    /// The call on the journal, where the pass has the log word.
    fn act(
        &self,
        hold: &mut Hold<JournalChronicle<SLOTS, D>, Frame<SLOTS>>,
        journal: &mut JournalChronicle<SLOTS, D>,
        held: &mut Three<SLOTS>,
        client: u8,
        call: &Call,
    ) -> Reply
        requires of { hold.old.table ≡ self.now.table }
        requires journal { HasJournal SLOTS self.now.pages hold.old.view journal.old }
        requires none { (held.old ≡ []) × (hold.old.view.hands.pages ≡ []) }
        requires client { IsClient client }
        requires in_range { IsInRange SLOTS call.now }
        requires no_abort { call.now ≡ Call.Abort → has_transaction (notes_of journal.old) client ≡ false }
        ensures of { hold.new.table ≡ self.now.table }
        ensures acts { Acts SLOTS hold.old.view hold.new.view journal.old journal.new held.new (entered_by_call client call.now result) (marked_by_call result) (found_by_call result) }
        ensures noted { WasNoted SLOTS journal.old }
        ensures counted { IfSome journal.old.failed (λ f. Rose journal.old.opened f.faults) }
        ensures made { found_by_call result ≡ None → DoesCallOn SLOTS D.faults journal.old journal.new client call.now result }
        ensures areas { found_by_call result ≡ None → OnlyForces D.content D.may_leave journal.old journal.new call.now result }
        ensures opens { journal.old.failed ≡ None → found_by_call result ≡ None → LeavesOnlyImages D.moment D.left_since journal.old.disk journal.new.disk (OpensDuring SLOTS journal.old client call.now) }
        ensures since { (began : LoggedView D) → OpensSince D.moment D.left_since SLOTS began journal.old → OpensSince D.moment D.left_since SLOTS began journal.new }
        ensures again { (word seat : ℕ) → result ≡ Reply.Again word seat → (journal.old.failed ≡ None) × Contains (pages_for_call journal.old.journal client call.now) word }
    {
        let _ = &self.latches;
        journal.know_history();
        let _ = journal.logged().journal().history();
        if let Some(failed) = journal.logged().failed() {
            return Reply::Stopped {
                faults: failed.faults,
            };
        }
        let work = journal.logged().journal().work(client, call);
        if let Err(found) = self.claim_for_work(hold, journal, work, held) {
            return again(found);
        }
        let reply = journal.apply(held, client, call);
        journal.know_history();
        reply
    }

    /// Does the call of the pass's client, and answers what its entry says. The pass keeps that entry, at a place that isn't
    /// below what it had seen. It doesn't wait: `Reply::Again` names a word that another pass has, the log's or that of a page
    /// that the call needs, and then nothing was done.
    ///
    /// The call is made on the journal as some moment of this call finds it, under the log word and those of the pages on which
    /// it works; there each answer has its cause.
    pub fn call(&self, pass: &mut Pass<SLOTS, D>, call: &Call) -> Reply
        requires of { pass.old.table ≡ self.now.table }
        requires client { IsClient pass.old.view.station.name }
        requires in_range { IsInRange SLOTS call.now }
        requires no_abort { call.now ≡ Call.Abort → pass.old.view.knowledge.truth ≡ false }
        ensures of { pass.new.table ≡ self.now.table }
        ensures knows { GoesOnAs pass.old.view pass.new.view (entered_by_call pass.old.view.station.name call.now result) (found_by_call result) }
        ensures refused { pass.new.refused ≡ refused_by_call result pass.old.refused }
        ensures made { found_by_call result ≡ None → MakesCall D SLOTS D.content D.may_leave D.faults D.moment D.left_since pass.old.view pass.new.view call.now result }
        ensures again { (word seat : ℕ) → result ≡ Reply.Again word seat → (word ≡ self.now.pages) ⊎ NeedsPage D SLOTS pass.old.view pass.new.view call.now word }
    {
        let mut journal = match self.latches.claim_log(&mut pass.hold) {
            Ok(journal) => journal,
            Err(found) => return again(found),
        };
        let mut held = Three::new();
        let reply = self.act(&mut pass.hold, &mut journal, &mut held, pass.number, call);
        count_call(&mut pass.refused, &reply);
        let entered = is_entered(&reply);
        pass.has_txn = has_after(entered, call, &reply, pass.has_txn);
        pass.seen = self.finish(&mut pass.hold, journal, &mut held, entered, pass.seen);
        reply
    }
}
