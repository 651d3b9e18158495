//! A transaction, and attempts at it.
ghost use Rattle.std.specs.Prelude.{◌≡◌, ◌∷◌, true, false, Ok, IfOk, IfErr};
ghost use Rattle.std.specs.List.{AllByRecursion};
ghost use Rattle.plain_model.specs.Machine.{IsInRange};
ghost use Rattle.shared_store.specs.Passes.{IsClient};
ghost use Rattle.client_pass.specs.Attempts.{is_busy, AreBusy, IsAnswered, AreAnswered, AreStuck, IsCompleted, IsGivenUp, IsAttempt, IsTried, Begun};
ghost use Rattle.client_pass.specs.Workings.{Makes, EndsWork, refused_after};

use crate::asking::make_at;
use crate::ends::WorkEnd;
use crate::gate::Gate;
use disk_model::Disk;
use plain_model::{Call, Reply};
use shared_store::{Pass, Store};
use std::sync::Wait;
use std::thread;

/// How often a call may be answered that another client stands in its way.
const MOST_BUSY: u8 = 8;

/// How many attempts at a transaction may be given up.
const MOST_ATTEMPTS: u8 = 4;

/// Whether another client stands in the way.
fn is_busy(reply: &Reply) -> bool
    ensures { result ≡ is_busy reply.now }
{
    matches!(reply, Reply::Busy { .. })
}

/// Makes the call until no other client stands in its way, eight times at most. Tells whether it was answered so.
fn try_call<const SLOTS: usize, D: Disk, G: Gate, R: Wait>(
    rt: &R,
    store: &Store<SLOTS, D>,
    pass: &mut Pass<SLOTS, D>,
    call: &Call,
    gate: &G,
    count: &mut u32,
) -> Result<bool, WorkEnd>
    requires of { pass.old.table ≡ store.now.table }
    requires client { IsClient pass.old.view.station.name }
    requires in_range { IsInRange SLOTS call.now }
    ensures of { pass.new.table ≡ store.now.table }
    ensures answered { result ≡ Ok true → Makes pass.old.view pass.new.view (IsAnswered call.now) }
    ensures stuck { result ≡ Ok false → Makes pass.old.view pass.new.view (AreBusy 8 call.now) }
    ensures err { IfErr result (λ end. Makes pass.old.view pass.new.view (Begun (IsAnswered call.now)) × EndsWork D SLOTS D.content D.may_leave D.faults D.moment D.left_since pass.new.view end) }
    ensures refused { pass.new.refused ≡ refused_after result pass.old.refused }
{
    'tries: for _ in 0..MOST_BUSY {
        match make_at(rt, store, pass, call, gate, count) {
            Err(end) => return Err(end),
            Ok(reply) => {
                if !is_busy(&reply) {
                    return Ok(true);
                }
            }
        }
        thread::yield_now();
    }
    Ok(false)
}

/// Begins the transaction and makes its calls in order. Tells whether all were answered, or one wasn't for eight times.
fn try_calls<const SLOTS: usize, D: Disk, G: Gate, R: Wait>(
    rt: &R,
    store: &Store<SLOTS, D>,
    pass: &mut Pass<SLOTS, D>,
    calls: &[Call],
    gate: &G,
    count: &mut u32,
) -> Result<bool, WorkEnd>
    requires of { pass.old.table ≡ store.now.table }
    requires client { IsClient pass.old.view.station.name }
    requires in_range { AllByRecursion (IsInRange SLOTS) calls.now }
    ensures of { pass.new.table ≡ store.now.table }
    ensures answered { result ≡ Ok true → Makes pass.old.view pass.new.view (AreAnswered (Call.Begin ∷ calls.now)) }
    ensures stuck { result ≡ Ok false → Makes pass.old.view pass.new.view (AreStuck (Call.Begin ∷ calls.now)) }
    ensures err { IfErr result (λ end. Makes pass.old.view pass.new.view (Begun (AreAnswered (Call.Begin ∷ calls.now))) × EndsWork D SLOTS D.content D.may_leave D.faults D.moment D.left_since pass.new.view end) }
    ensures refused { pass.new.refused ≡ refused_after result pass.old.refused }
{
    match try_call(rt, store, pass, &Call::Begin, gate, count) {
        Ok(true) => {}
        Ok(false) => return Ok(false),
        Err(end) => return Err(end),
    }
    'calls: for call in calls {
        match try_call(rt, store, pass, call, gate, count) {
            Ok(true) => {}
            Ok(false) => return Ok(false),
            Err(end) => return Err(end),
        }
    }
    Ok(true)
}

/// Makes an attempt at the transaction: where it is open after its calls, it is aborted. Tells whether it was completed.
fn attempt<const SLOTS: usize, D: Disk, G: Gate, R: Wait>(
    rt: &R,
    store: &Store<SLOTS, D>,
    pass: &mut Pass<SLOTS, D>,
    calls: &[Call],
    gate: &G,
    count: &mut u32,
) -> Result<bool, WorkEnd>
    requires of { pass.old.table ≡ store.now.table }
    requires client { IsClient pass.old.view.station.name }
    requires in_range { AllByRecursion (IsInRange SLOTS) calls.now }
    requires none { pass.old.view.knowledge.truth ≡ false }
    ensures of { pass.new.table ≡ store.now.table }
    ensures completed { result ≡ Ok true → Makes pass.old.view pass.new.view (IsCompleted calls.now) × (pass.new.view.knowledge.truth ≡ false) }
    ensures given_up { result ≡ Ok false → Makes pass.old.view pass.new.view (IsGivenUp calls.now) × (pass.new.view.knowledge.truth ≡ false) }
    ensures err { IfErr result (λ end. Makes pass.old.view pass.new.view (Begun (IsAttempt calls.now)) × EndsWork D SLOTS D.content D.may_leave D.faults D.moment D.left_since pass.new.view end) }
    ensures refused { pass.new.refused ≡ refused_after result pass.old.refused }
{
    let completed = match try_calls(rt, store, pass, calls, gate, count) {
        Ok(completed) => completed,
        Err(end) => return Err(end),
    };
    if pass.has_txn() {
        if let Err(end) = make_at(rt, store, pass, &Call::Abort, gate, count) {
            return Err(end);
        }
    }
    Ok(completed)
}

/// Tries the transaction until an attempt is completed, four times at most.
pub(crate) fn transact<const SLOTS: usize, D: Disk, G: Gate, R: Wait>(
    rt: &R,
    store: &Store<SLOTS, D>,
    pass: &mut Pass<SLOTS, D>,
    calls: &[Call],
    gate: &G,
    count: &mut u32,
) -> Result<(), WorkEnd>
    requires of { pass.old.table ≡ store.now.table }
    requires client { IsClient pass.old.view.station.name }
    requires in_range { AllByRecursion (IsInRange SLOTS) calls.now }
    requires none { pass.old.view.knowledge.truth ≡ false }
    ensures of { pass.new.table ≡ store.now.table }
    ensures ok { IfOk result (λ _. Makes pass.old.view pass.new.view (IsTried 4 calls.now) × (pass.new.view.knowledge.truth ≡ false)) }
    ensures err { IfErr result (λ end. Makes pass.old.view pass.new.view (Begun (IsTried 4 calls.now)) × EndsWork D SLOTS D.content D.may_leave D.faults D.moment D.left_since pass.new.view end) }
    ensures refused { pass.new.refused ≡ refused_after result pass.old.refused }
{
    'attempts: for _ in 0..MOST_ATTEMPTS {
        match attempt(rt, store, pass, calls, gate, count) {
            Err(end) => return Err(end),
            Ok(true) => return Ok(()),
            Ok(false) => {}
        }
    }
    Ok(())
}
