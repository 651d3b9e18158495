//! One call of a client.
ghost use Rattle.std.specs.Prelude.{◌≡◌, true, false, Some, None, IfOk, IfErr};
ghost use Rattle.plain_model.specs.Machine.{IsInRange};
ghost use Rattle.shared_store.specs.Passes.{IsClient};
ghost use Rattle.shared_store.specs.Calls.{found_by_call};
ghost use Rattle.client_pass.specs.Attempts.{AreUndos, IsMade};
ghost use Rattle.client_pass.specs.Workings.{Makes, IsCutOff, Aborts, EndsWork, end_of, refused_after};

use crate::ends::WorkEnd;
use crate::gate::Gate;
use core_store::AbortStep;
use disk_model::Disk;
use plain_model::{Call, Reply};
use shared_store::{Pass, StepRefusal, Store};
use std::sync::Wait;
use std::thread;

/// The reply, or the end of the work that it means.
fn told(reply: Reply) -> Result<Reply, WorkEnd>
    requires found { found_by_call reply ≡ None }
    ensures ok { IfOk result (λ r. (r ≡ reply) × (end_of reply ≡ None)) }
    ensures err { IfErr result (λ end. end_of reply ≡ Some end) }
{
    match reply {
        Reply::Stopped { .. } | Reply::DiskFault => Err(WorkEnd::Disk { reply }),
        Reply::TraceFull | Reply::LogFull => Err(WorkEnd::Limit { reply }),
        Reply::Memory => Err(WorkEnd::Memory),
        _ => Ok(reply),
    }
}

/// Makes the call, as often as it finds a word held.
fn ask<const SLOTS: usize, D: Disk, R: Wait>(
    rt: &R,
    store: &Store<SLOTS, D>,
    pass: &mut Pass<SLOTS, D>,
    call: &Call,
) -> Result<Reply, WorkEnd>
    requires of { pass.old.table ≡ store.now.table }
    requires client { IsClient pass.old.view.station.name }
    requires in_range { IsInRange SLOTS call.now }
    requires no_abort { call.now ≡ Call.Abort → pass.old.view.knowledge.truth ≡ false }
    ensures of { pass.new.table ≡ store.now.table }
    ensures ok { IfOk result (λ r. Makes pass.old.view pass.new.view (IsMade call.now r)) }
    ensures err { IfErr result (λ end. Makes pass.old.view pass.new.view (IsCutOff call.now) × EndsWork D SLOTS D.content D.may_leave D.faults D.moment D.left_since pass.new.view end) }
    ensures refused { pass.new.refused ≡ refused_after result pass.old.refused }
{
    'tries: for _ in rt.forever() {
        match store.call(pass, call) {
            Reply::Again { .. } => thread::yield_now(),
            reply => return told(reply),
        }
    }
    unreachable!()
}

/// Undoes the client's transaction, write by write, and ends it.
fn abort<const SLOTS: usize, D: Disk, R: Wait>(
    rt: &R,
    store: &Store<SLOTS, D>,
    pass: &mut Pass<SLOTS, D>,
) -> Result<Reply, WorkEnd>
    requires of { pass.old.table ≡ store.now.table }
    requires active { pass.old.view.knowledge.truth ≡ true }
    ensures of { pass.new.table ≡ store.now.table }
    ensures ok { IfOk result (λ r. (r ≡ Reply.Done) × Makes pass.old.view pass.new.view (IsMade Call.Abort r)) }
    ensures err { IfErr result (λ end. Makes pass.old.view pass.new.view AreUndos × EndsWork D SLOTS D.content D.may_leave D.faults D.moment D.left_since pass.new.view end) }
    ensures refused { pass.new.refused ≡ refused_after result pass.old.refused }
{
    'steps: for _ in rt.forever() {
        match store.abort_step(pass) {
            Ok(AbortStep::Undone) => {}
            Ok(AbortStep::Ended) => return Ok(Reply::Done),
            Err(StepRefusal::Again { .. }) => thread::yield_now(),
            Err(StepRefusal::Stopped { faults }) => {
                return Err(WorkEnd::Disk {
                    reply: Reply::Stopped { faults },
                });
            }
        }
    }
    unreachable!()
}

/// Makes the call, and answers as the store does. An abort of a transaction is made in steps.
fn make<const SLOTS: usize, D: Disk, R: Wait>(
    rt: &R,
    store: &Store<SLOTS, D>,
    pass: &mut Pass<SLOTS, D>,
    call: &Call,
) -> Result<Reply, WorkEnd>
    requires of { pass.old.table ≡ store.now.table }
    requires client { IsClient pass.old.view.station.name }
    requires in_range { IsInRange SLOTS call.now }
    ensures of { pass.new.table ≡ store.now.table }
    ensures ok { IfOk result (λ r. Makes pass.old.view pass.new.view (IsMade call.now r)) }
    ensures aborts { call.now ≡ Call.Abort → pass.old.view.knowledge.truth ≡ true → Aborts pass.old.view pass.new.view result }
    ensures err { IfErr result (λ end. Makes pass.old.view pass.new.view (IsCutOff call.now) × EndsWork D SLOTS D.content D.may_leave D.faults D.moment D.left_since pass.new.view end) }
    ensures refused { pass.new.refused ≡ refused_after result pass.old.refused }
{
    if *call == Call::Abort && pass.has_txn() {
        return abort(rt, store, pass);
    }
    ask(rt, store, pass, call)
}

/// Makes the call within the gate. The gate is told how many calls were made before it.
pub(crate) fn make_at<const SLOTS: usize, D: Disk, G: Gate, R: Wait>(
    rt: &R,
    store: &Store<SLOTS, D>,
    pass: &mut Pass<SLOTS, D>,
    call: &Call,
    gate: &G,
    count: &mut u32,
) -> Result<Reply, WorkEnd>
    requires of { pass.old.table ≡ store.now.table }
    requires client { IsClient pass.old.view.station.name }
    requires in_range { IsInRange SLOTS call.now }
    ensures of { pass.new.table ≡ store.now.table }
    ensures ok { IfOk result (λ r. Makes pass.old.view pass.new.view (IsMade call.now r)) }
    ensures aborts { call.now ≡ Call.Abort → pass.old.view.knowledge.truth ≡ true → Aborts pass.old.view pass.new.view result }
    ensures err { IfErr result (λ end. Makes pass.old.view pass.new.view (IsCutOff call.now) × EndsWork D SLOTS D.content D.may_leave D.faults D.moment D.left_since pass.new.view end) }
    ensures refused { pass.new.refused ≡ refused_after result pass.old.refused }
{
    *count = count.saturating_add(1);
    gate.before(pass.number(), *count);
    let reply = make(rt, store, pass, call);
    gate.after(pass.number(), *count);
    reply
}
