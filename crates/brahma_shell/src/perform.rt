//! What a client's line asks, done in the store.
ghost use Rattle.std.specs.Prelude.{◌≡◌, ◌⊎◌, ◌+◌, ◌<◌, ◌≢◌, [], ◌∷◌, ◌++◌, replicate, IsSome, Some, None, IsOk, IfOk, IfErr, Option};
ghost use Rattle.plain_model.specs.Machine.{IsInRange, transaction_of};
ghost use Rattle.plain_model.specs.History.{end_of, left_to_undo};
ghost use Rattle.plain_model.specs.Text.{line_of};
ghost use Rattle.script_lines.specs.Grammar.{IsClient};
ghost use Rattle.brahma_shell.specs.Growth.{GrowsBy};
ghost use Rattle.brahma_shell.specs.Log.{StaysRunning};
ghost use Rattle.brahma_shell.specs.Replay.{answer_text, Performs, StopsCall, LeavesLog, FailsCall};
ghost use Rattle.script_lines.specs.Numbers.{object_slots};

use crate::replay::Stop;
use crate::store::Store;
use core_store::AbortStep;
use disk_model::Disk;
use plain_model::{Call, Entry, Reply};
use script_lines::Line;

/// A call, and what the client is answered.
#[derive(Clone, Copy, PartialEq, Eq, Debug)]
pub(crate) struct Answer {
    pub(crate) client: u8,
    pub(crate) call: Call,
    pub(crate) reply: Reply,
}

/// Does one call, and tells the reply.
#[inline(always)]
fn reply_to<D: Disk>(store: &mut Store<D>, client: u8, call: &Call) -> Result<Reply, Stop>
    requires client { IsClient client }
    requires in_range { IsInRange object_slots call.now }
    requires no_abort { call.now ≡ Call.Abort → transaction_of (end_of store.old.journal.history).state client ≡ None }
    requires running { store.old.failed ≡ None }
    ensures ok { IfOk result (λ reply. GrowsBy store.old.journal store.new.journal (Entry.Call client call.now reply ∷ [])) }
    ensures no_fault { IfOk result (λ reply. reply ≢ Reply.DiskFault) }
    ensures goes_on { IfOk result (λ _. StaysRunning D.faults store.old store.new) }
    ensures err { IfErr result (λ s.
        StopsCall s store.old.journal store.new.journal × LeavesLog D.faults s store.old store.new
        ⊎ FailsCall D.faults s client call.now store.old store.new) }
{
    let reply = store.call(client, call);
    match reply {
        Reply::Memory => Err(Stop::Memory),
        Reply::TraceFull => Err(Stop::Full),
        Reply::LogFull => Err(Stop::LogFull),
        Reply::DiskFault => Err(Stop::Fault),
        Reply::Stopped { .. } => Err(Stop::Stopped),
        _ => Ok(reply),
    }
}

/// Does one call, and tells it with its reply.
fn call<D: Disk>(store: &mut Store<D>, client: u8, call: Call) -> Result<Answer, Stop>
    requires client { IsClient client }
    requires in_range { IsInRange object_slots call }
    requires no_abort { call ≡ Call.Abort → transaction_of (end_of store.old.journal.history).state client ≡ None }
    requires running { store.old.failed ≡ None }
    ensures ok { IfOk result (λ a. (a.client ≡ client) × (a.call ≡ call)
        × GrowsBy store.old.journal store.new.journal (Entry.Call client call a.reply ∷ [])) }
    ensures no_fault { IfOk result (λ a. a.reply ≢ Reply.DiskFault) }
    ensures goes_on { IfOk result (λ _. StaysRunning D.faults store.old store.new) }
    ensures err { IfErr result (λ s.
        StopsCall s store.old.journal store.new.journal × LeavesLog D.faults s store.old store.new
        ⊎ FailsCall D.faults s client call store.old store.new) }
{
    match reply_to(store, client, &call) {
        Ok(reply) => Ok(Answer {
            client,
            call,
            reply,
        }),
        Err(stop) => Err(stop),
    }
}

/// Undoes each write of the client's transaction that isn't undone, and ends the transaction.
fn undo_all<D: Disk>(store: &mut Store<D>, client: u8) -> Result<(), Stop>
    requires active { IsSome (transaction_of (end_of store.old.journal.history).state client) }
    requires running { store.old.failed ≡ None }
    ensures ok { IsOk result }
    ensures entries { GrowsBy store.old.journal store.new.journal
        (replicate (left_to_undo (end_of store.old.journal.history) client) (Entry.Undo client)
        ++ Entry.Call client Call.Abort Reply.Done ∷ []) }
    ensures goes_on { StaysRunning D.faults store.old store.new }
{
    'steps: loop {
        match store.abort_step(client) {
            Ok(AbortStep::Undone) => {}
            Ok(AbortStep::Ended) => return Ok(()),
            Err(_) => return Err(Stop::Stopped),
        }
    }
}

/// Does the call that a line asks, and tells the reply.
pub(crate) fn ask<D: Disk>(store: &mut Store<D>, client: u8, asked: &Call) -> Result<Reply, Stop>
    requires line { IsClient client × IsInRange object_slots asked.now × (asked.now ≡ Call.Abort → ⊥) }
    requires running { store.old.failed ≡ None }
    ensures ok { IfOk result (λ reply. Performs store.old.journal store.new.journal (Line.Ask client asked.now) (line_of (Entry.Call client asked.now reply))) }
    ensures goes_on { IfOk result (λ _. StaysRunning D.faults store.old store.new) }
    ensures err { IfErr result (λ s.
        StopsCall s store.old.journal store.new.journal × LeavesLog D.faults s store.old store.new
        ⊎ FailsCall D.faults s client asked.now store.old store.new) }
{
    reply_to(store, client, asked)
}

/// Undoes the client's transaction, and ends it.
#[inline(never)]
pub(crate) fn abort<D: Disk>(store: &mut Store<D>, client: u8) -> Result<Answer, Stop>
    requires client { IsClient client }
    requires running { store.old.failed ≡ None }
    ensures ok { IfOk result (λ a. Performs store.old.journal store.new.journal (Line.Abort client) (answer_text (Some a))) }
    ensures goes_on { IfOk result (λ _. StaysRunning D.faults store.old store.new) }
    ensures err { IfErr result (λ s.
        StopsCall s store.old.journal store.new.journal × LeavesLog D.faults s store.old store.new) }
{
    if !store.active(client) {
        return call(store, client, Call::Abort);
    }
    undo_all(store, client)?;
    Ok(aborted(client))
}

/// Undoes the last write of the client's transaction that isn't undone, or ends the transaction where there is none.
/// Nothing is answered to an undo.
#[inline(never)]
pub(crate) fn undo<D: Disk>(store: &mut Store<D>, client: u8) -> Result<Option<Answer>, Stop>
    requires client { IsClient client }
    requires running { store.old.failed ≡ None }
    ensures ok { IfOk result (λ a. Performs store.old.journal store.new.journal (Line.Undo client) (answer_text a)) }
    ensures goes_on { IfOk result (λ _. StaysRunning D.faults store.old store.new) }
    ensures err { IfErr result (λ s.
        StopsCall s store.old.journal store.new.journal × LeavesLog D.faults s store.old store.new) }
{
    if !store.active(client) {
        return Ok(Some(call(store, client, Call::Abort)?));
    }
    match store.abort_step(client) {
        Ok(AbortStep::Undone) => Ok(None),
        Ok(AbortStep::Ended) => Ok(Some(aborted(client))),
        Err(_) => Err(Stop::Stopped),
    }
}

/// The answer to an abort that ended a transaction.
fn aborted(client: u8) -> Answer
    ensures { (result.client ≡ client) × (result.call ≡ Call.Abort) × (result.reply ≡ Reply.Done) }
{
    Answer {
        client,
        call: Call::Abort,
        reply: Reply::Done,
    }
}
