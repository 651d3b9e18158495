//! A transaction of the client, from the store that is kept back to it.
ghost use Rattle.std.specs.Prelude.{◌≡◌, ◌≤◌, true, IfOk, IfErr, OnOk, OnErr};
ghost use Rattle.disk_model.specs.Told.{EachImage};
ghost use Rattle.logged_journal.specs.View.{LoggedView};
ghost use Rattle.map_calls.specs.Views.{GoesOn, Fails};
ghost use Rattle.object_map.specs.Clients.{seen, state_of, free_ids};
ghost use Rattle.stored_map.specs.Graphs.{KeepsMap};
ghost use Rattle.stored_map.specs.Stores.{state_in, IsIdle, IsKept, IsKnown, is_running, view_at, view_of, leaving, OpensToSame};
ghost use Rattle.stored_map.specs.Steps.{IsAtWork, IsLooked, Stays, KeepsMarks, Commits, FailsOn};

use crate::kept::Kept;
use crate::knowing::know_left;
use crate::{CLIENT, SLOTS, asking};
use disk_model::Disk;
use map_calls::Failure;
use object_map::Client;
use shared_store::LoneStore;
use std::mem;

/// Begins the client's transaction in this store, which goes with the client.
fn begin_at<D: Disk>(kept: &mut Kept<D>, store: LoneStore<SLOTS, D>) -> Result<Client<D>, Failure>
    requires idle { IsIdle store }
    ensures looked { IfOk result (λ c. IsLooked D.faults (view_at D.faults true store) c) }
    ensures failed { IfErr result (λ f. Fails f (view_at D.faults true store) (view_of D.faults kept.new) (leaving D.may_leave kept.new) (λ n. ⊥)) }
    ensures later { OnErr result (D.faults store.disk ≤ (view_of D.faults kept.new).faults) }
    ensures kept { OnErr result (IsKept kept.new) }
{
    let mut store = store;
    match asking::begin(&mut store) {
        Ok(()) => Ok(Client::new(store, CLIENT)),
        Err(failure) => {
            know_left(&store);
            *kept = Kept::Stopped(store);
            Err(failure)
        }
    }
}

/// The client, whose transaction has begun, and the store with it.
pub(crate) fn begin<D: Disk>(kept: &mut Kept<D>) -> Result<Client<D>, Failure>
    requires kept { IsKept kept.old }
    requires running { is_running kept.old ≡ true }
    ensures looked { IfOk result (λ c. IsLooked D.faults (view_of D.faults kept.old) c) }
    ensures failed { IfErr result (λ f. Fails f (view_of D.faults kept.old) (view_of D.faults kept.new) (leaving D.may_leave kept.new) (λ n. ⊥)) }
    ensures later { OnErr result ((view_of D.faults kept.old).faults ≤ (view_of D.faults kept.new).faults) }
    ensures kept { OnErr result (IsKept kept.new) }
{
    match mem::replace(kept, Kept::Taken) {
        Kept::Looking(store) => Ok(Client::new(store, CLIENT)),
        Kept::Idle(store) => begin_at(kept, store),
        Kept::Stopped(_) => unreachable!(),
        Kept::Shut(_) => unreachable!(),
        Kept::Taken => unreachable!(),
    }
}

/// Commits the client's transaction, and takes the store back.
pub(crate) fn commit<D: Disk>(kept: &mut Kept<D>, client: Client<D>) -> Result<(), Failure>
    requires at_work { IsAtWork client }
    requires map { KeepsMap (seen client).graph }
    ensures done { OnOk result ((v : LoggedView D) × (kept.new ≡ Kept.Idle v) × Commits D.faults client.store v × IsKnown (state_in v)) }
    ensures goes { OnOk result (GoesOn (view_of D.faults kept.new) (leaving D.may_leave kept.new)) }
    ensures failed { IfErr result (λ f. (v : LoggedView D) × (kept.new ≡ Kept.Stopped v) × FailsOn D.faults D.may_leave f client v) }
    ensures later { D.faults client.store.disk ≤ (view_of D.faults kept.new).faults }
    ensures kept { IsKept kept.new }
{
    let mut store = client.into_store();
    match asking::commit(&mut store) {
        Ok(()) => {
            know_left(&store);
            *kept = Kept::Idle(store);
            Ok(())
        }
        Err(failure) => {
            know_left(&store);
            *kept = Kept::Stopped(store);
            Err(failure)
        }
    }
}

/// Takes the store back from a client of which a call was refused.
pub(crate) fn stop<D: Disk>(kept: &mut Kept<D>, client: Client<D>)
    ensures kept { kept.new ≡ Kept.Stopped client.store }
    ensures left { EachImage D.may_leave client.store.disk (OpensToSame (state_of client).ids (state_of client).committed) }
{
    let store = client.into_store();
    know_left(&store);
    *kept = Kept::Stopped(store);
}

/// Takes the store back from a client for which no id is free, and undoes its transaction.
pub(crate) fn abort<D: Disk>(kept: &mut Kept<D>, client: Client<D>)
    requires at_work { IsAtWork client }
    ensures kept { (v : LoggedView D) × (kept.new ≡ Kept.Idle v) × Stays client.store v × KeepsMarks client.store v × (free_ids (state_in v) ≡ free_ids (state_of client)) }
    ensures goes { GoesOn (view_of D.faults kept.new) (leaving D.may_leave kept.new) }
    ensures idle { IsKept kept.new }
{
    let mut store = client.into_store();
    asking::abort(&mut store);
    know_left(&store);
    *kept = Kept::Idle(store);
}
