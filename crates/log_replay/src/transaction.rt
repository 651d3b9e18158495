//! A transaction that hasn't ended, as the records of a log tell of it.

ghost use Rattle.std.specs.Prelude.{◌≡◌, ◌≢◌, ◌↔◌, true, false, Some, None, Err, [], IfNone, IfSome, IfOk, OnOk, OnErr};
ghost use Rattle.std.specs.List.{last_or};
ghost use Rattle.restart_laws.specs.Unended.{just_begun, with_change, without_change};
ghost use Rattle.log_replay.specs.Steps.{change_by};
ghost use Rattle.log_replay.specs.declared.refusals.TakeRefusal.TheVariants.{Unfit};

use crate::Memory;
use crate::refusals::TakeRefusal;
use plain_model::Place;
use std::alloc::Global;
use std::marker::Model;

/// What a write changed: a place of an object, what stood there before, and what it wrote.
#[derive(Clone, Copy, PartialEq, Eq, Debug)]
pub(crate) struct Write {
    pub(crate) id: u32,
    pub(crate) place: Place,
    pub(crate) old: u64,
    pub(crate) new: u64,
}

/// A transaction that has begun and hasn't ended.
#[derive(Debug, Drop)]
pub(crate) struct Transaction {
    /// What its writes changed that isn't undone, oldest first.
    changes: Vec<Write>,
    aborting: bool,
}

impl Model for Transaction {
    ghost use Rattle.std.specs.Prelude.{map};
    ghost use Rattle.restart_laws.specs.Unended.{Unended};
    ghost use Rattle.log_replay.specs.Steps.{change_by};

    ghost Value = { Unended };

    ghost view = { λ t. record { changes = map change_by t.changes.items; aborting = t.aborting } };
}

/// For so many writes a transaction takes memory once.
const ROOM: usize = 40;

impl Transaction {
    /// It changed nothing yet.
    pub(crate) fn new(alloc: Global) -> Result<Transaction, Memory>
        ensures { IfOk result (λ transaction. transaction ≡ just_begun) }
    {
        Ok(Transaction {
            changes: Vec::with_capacity(alloc, ROOM)?,
            aborting: false,
        })
    }

    /// Whether a write of it was undone.
    pub(crate) fn is_aborting(&self) -> bool
        ensures { result ≡ self.now.aborting }
    {
        self.aborting
    }

    /// Whether all its writes are undone.
    pub(crate) fn is_all_undone(&self) -> bool
        ensures { (result ≡ true) ↔ (self.now.changes ≡ []) }
    {
        self.changes.is_empty()
    }

    /// The last of its writes that isn't undone.
    pub(crate) fn last(&self) -> Option<Write>
        ensures some { IfSome result (λ w. last_or None self.now.changes ≡ Some (change_by w)) }
        ensures none { IfNone result (self.now.changes ≡ []) }
    {
        self.changes.last().copied()
    }

    /// Whether this is the last of its writes that isn't undone.
    pub(crate) fn is_last(&self, write: &Write) -> bool
        ensures { (result ≡ true) ↔ (last_or None self.now.changes ≡ Some (change_by write.now)) }
    {
        match self.last() {
            Some(last) => last == *write,
            None => false,
        }
    }

    /// One write more. Out of memory is its only error.
    #[inline(always)]
    fn note(&mut self, write: Write) -> Result<(), Memory>
        ensures ok { OnOk result (self.new ≡ with_change (change_by write) self.old) }
        ensures err { OnErr result (self.new ≡ self.old) }
    {
        self.changes.push(write)?;
        Ok(())
    }

    /// One write more, unless a write of it was undone. An error changes nothing.
    #[inline(always)]
    pub(crate) fn note_if_running(&mut self, write: Write) -> Result<(), TakeRefusal>
        ensures ok { OnOk result (self.new ≡ with_change (change_by write) self.old) }
        ensures err { OnErr result (self.new ≡ self.old) }
        ensures unfit { (result ≢ Err Unfit) ↔ (self.old.aborting ≡ false) }
    {
        if self.is_aborting() {
            return Err(TakeRefusal::Unfit);
        }
        match self.note(write) {
            Ok(()) => Ok(()),
            Err(_) => Err(TakeRefusal::Memory),
        }
    }

    /// The last write is undone.
    pub(crate) fn undo(&mut self)
        ensures { self.new ≡ without_change self.old }
    {
        self.changes.pop();
        self.aborting = true;
    }
}
