//! The transactions that haven't ended, and which record fits them.

ghost use Rattle.std.specs.Prelude.{◌≡◌, ◌≢◌, ◌↔◌, [], true, None, Err, IfSome, IfNone, OnOk, OnErr};
ghost use Rattle.std.specs.Ordering.{nat_cmp};
ghost use Rattle.std.specs.BTreeMap.{insert_entry};
ghost use Rattle.restart_laws.specs.Unended.{unended_at, unended_after, changed_at, just_begun, with_change, without_change, IsRunning, IsLastChange, IsAllUndone, FitsUnended};
ghost use Rattle.log_record.specs.Changes.{change_record};
ghost use Rattle.log_record.specs.Records.{record_of};
ghost use Rattle.log_replay.specs.Replays.{NotesNothing};
ghost use Rattle.log_replay.specs.Steps.{change_by, place_of_byte, IsFirst};
ghost use Rattle.log_replay.specs.declared.refusals.TakeRefusal.TheVariants.{Unfit};

use crate::refusals::TakeRefusal;
use crate::transaction::{Transaction, Write};
use crate::transactions::Transactions;
use log_record::{CellRecord, PAYLOAD_PLACE, PayloadChange};
use plain_model::Place;
use std::alloc::Global;

/// The place that an undo names by this byte.
fn place_of(place: u8) -> Place
    ensures { result ≡ place_of_byte place }
{
    if place == PAYLOAD_PLACE {
        Place::Payload
    } else {
        Place::Slot(place)
    }
}

/// Whether the client has a transaction, no write of which was undone.
fn is_running(unended: &Transactions, pass: u8) -> bool
    ensures { (result ≡ true) ↔ IsRunning (unended_at unended.now.entries pass) }
{
    match unended.get(pass) {
        Some(transaction) => !transaction.is_aborting(),
        None => false,
    }
}

/// Whether the client has a transaction whose last write that isn't undone is this one.
fn is_last(unended: &Transactions, pass: u8, write: &Write) -> bool
    ensures { (result ≡ true) ↔ IsLastChange (unended_at unended.now.entries pass) (change_by write.now) }
{
    match unended.get(pass) {
        Some(transaction) => transaction.is_last(write),
        None => false,
    }
}

/// Whether the client has a transaction whose writes are all undone.
fn is_all_undone(unended: &Transactions, pass: u8) -> bool
    ensures { (result ≡ true) ↔ IsAllUndone (unended_at unended.now.entries pass) }
{
    match unended.get(pass) {
        Some(transaction) => transaction.is_all_undone(),
        None => false,
    }
}

/// Whether the record fits the transactions that haven't ended.
fn fits(unended: &Transactions, r: &CellRecord) -> bool
    ensures { (result ≡ true) ↔ FitsUnended unended.now.entries (record_of r.now) }
{
    match *r {
        CellRecord::Begin { pass } => unended.get(pass).is_none(),
        CellRecord::Make { pass, .. }
        | CellRecord::Store { pass, .. }
        | CellRecord::Pay { pass, .. }
        | CellRecord::Commit { pass } => is_running(unended, pass),
        CellRecord::Undo {
            pass,
            id,
            place,
            from,
            to,
            ..
        } => {
            let write = Write {
                id,
                place: place_of(place),
                old: to,
                new: from,
            };
            is_last(unended, pass, &write)
        }
        CellRecord::AbortEnd { pass } => is_all_undone(unended, pass),
        _ => true,
    }
}

/// The client's transaction wrote once more. An error changes nothing.
#[inline(always)]
fn note(unended: &mut Transactions, pass: u8, write: Write) -> Result<(), TakeRefusal>
    ensures ok { OnOk result (unended.new.entries ≡ changed_at unended.old.entries pass (with_change (change_by write))) }
    ensures err { OnErr result (unended.new.entries ≡ unended.old.entries) }

    // `Unfit` is the answer exactly where the client has no transaction, or one of which a write was undone.
    ensures unfit { (result ≢ Err Unfit) ↔ IsRunning (unended_at unended.old.entries pass) }
{
    match unended.get_mut(pass) {
        Some(transaction) => transaction.note_if_running(write),
        None => Err(TakeRefusal::Unfit),
    }
}

/// The last write of the client's transaction is undone.
fn undo(unended: &mut Transactions, pass: u8)
    ensures { unended.new.entries ≡ changed_at unended.old.entries pass without_change }
{
    if let Some(transaction) = unended.get_mut(pass) {
        transaction.undo();
    }
}

/// The transactions after a record that adds nothing to them.
pub(crate) fn leave(unended: &mut Transactions, r: &CellRecord)
    requires { NotesNothing r.now }
    ensures { unended.new.entries ≡ unended_after unended.old.entries (record_of r.now) }
{
    match *r {
        CellRecord::Undo { pass, .. } => undo(unended, pass),
        CellRecord::Commit { pass } | CellRecord::AbortEnd { pass } => {
            unended.remove(pass);
        }
        _ => (),
    }
}

/// The client begins a transaction. An error changes nothing.
fn begin(unended: &mut Transactions, alloc: Global, pass: u8) -> Result<(), TakeRefusal>
    ensures ok { OnOk result (unended.new.entries ≡ insert_entry nat_cmp unended.old.entries pass just_begun) }
    ensures err { OnErr result (unended.new.entries ≡ unended.old.entries) }

    // `Unfit` is the answer exactly where the client has a transaction already.
    ensures unfit { (result ≢ Err Unfit) ↔ (unended_at unended.old.entries pass ≡ None) }
{
    if unended.get(pass).is_some() {
        return Err(TakeRefusal::Unfit);
    }
    let Ok(begun) = Transaction::new(alloc) else {
        return Err(TakeRefusal::Memory);
    };
    match unended.insert(pass, begun) {
        Ok(_) => Ok(()),
        Err(_) => Err(TakeRefusal::Memory),
    }
}

/// The transactions after the record. An error changes nothing.
#[inline(always)]
pub(crate) fn take(
    unended: &mut Transactions,
    alloc: Global,
    r: &CellRecord,
) -> Result<(), TakeRefusal>
    ensures ok { OnOk result (unended.new.entries ≡ unended_after unended.old.entries (record_of r.now)) }
    ensures err { OnErr result (unended.new.entries ≡ unended.old.entries) }

    // `Unfit` is the answer exactly where the record doesn't fit them.
    ensures unfit { (result ≢ Err Unfit) ↔ FitsUnended unended.old.entries (record_of r.now) }
{
    match *r {
        CellRecord::Begin { pass } => begin(unended, alloc, pass),
        CellRecord::Store {
            pass,
            id,
            slot,
            old_target,
            new_target,
            ..
        } => {
            let write = Write {
                id,
                place: Place::Slot(slot),
                old: old_target as u64,
                new: new_target as u64,
            };
            note(unended, pass, write)
        }
        CellRecord::Pay {
            pass,
            id,
            old_value,
            new_value,
        } => {
            let write = Write {
                id,
                place: Place::Payload,
                old: old_value,
                new: new_value,
            };
            note(unended, pass, write)
        }
        _ => {
            if !fits(unended, r) {
                return Err(TakeRefusal::Unfit);
            }
            leave(unended, r);
            Ok(())
        }
    }
}

/// The transactions after a change of a payload. An error changes nothing.
#[inline(always)]
pub(crate) fn take_change(
    unended: &mut Transactions,
    change: PayloadChange,
) -> Result<(), TakeRefusal>
    ensures ok { OnOk result (unended.new.entries ≡ unended_after unended.old.entries (record_of (change_record change))) }
    ensures err { OnErr result (unended.new.entries ≡ unended.old.entries) }

    // `Unfit` is the answer exactly where it doesn't fit them.
    ensures unfit { (result ≢ Err Unfit) ↔ FitsUnended unended.old.entries (record_of (change_record change)) }
{
    let write = Write {
        id: change.id,
        place: Place::Payload,
        old: change.old_value,
        new: change.new_value,
    };
    note(unended, change.pass, write)
}

/// The first client whose transaction hasn't ended, and the last write of it that isn't undone.
pub(crate) fn first(unended: &Transactions) -> Option<(u8, Option<Write>)>
    ensures some { IfSome result (λ p. IsFirst unended.now.entries p.0 p.1) }
    ensures none { IfNone result (unended.now.entries ≡ []) }
{
    let (pass, transaction) = unended.first()?;
    Some((pass, transaction.last()))
}
