//! What a call does that isn't refused, and why a call is refused.

ghost use Rattle.std.specs.Prelude.{◌≡◌, ℕ, ◌+◌, ◌<◌, ◌^◌, IfOk, IfErr, IfSome, None};
ghost use Rattle.plain_model.specs.Machine.{IsInRange};
ghost use Rattle.core_store.specs.Transactions.{running_at};
ghost use Rattle.core_store.specs.Plans.{IsGranted, room_needed, IsRefused, IsShareable, IsOwnable, IsReleasable, IsBlockedBy};
ghost use Rattle.core_store.specs.Views.{view_of};

use crate::tables::Tables;
use crate::transactions;
use plain_model::{Call, Reply};

/// What a call does that isn't refused: the object on which it works, and what it does there.
#[derive(Clone, Copy, PartialEq, Eq, Debug)]
pub(crate) enum Plan {
    Begin,
    Read { id: u32, slot: u8, into: u8 },
    Make { id: u32, into: u8 },
    Store { id: u32, slot: u8, target: u32 },
    Get { id: u32 },
    Release { id: u32 },
    Set { id: u32, value: u64 },
    Commit,
}

/// What is to be locked: shared with other clients, or owned alone.
#[derive(Clone, Copy, PartialEq, Eq, Debug)]
enum Lock {
    Shared,
    Owned,
}

/// For how many entries there is to be room before what was planned is done, where so many are owed: one is added, and
/// the transaction may come to owe one more. The entry of a commit is one that its transaction owes.
pub(crate) fn room_needed(planned: Result<Plan, Reply>, owed: usize) -> usize
    requires { owed + 2 < 2 ^ 64 }
    ensures { result ≡ room_needed planned owed }
{
    match planned {
        Ok(Plan::Commit) => owed,
        _ => owed + 2,
    }
}

impl<const SLOTS: usize> Tables<SLOTS> {
    /// The refusal where another client stands in the way of the lock.
    #[inline(always)]
    fn blocked(&self, pass: u8, id: u32, lock: Lock) -> Option<Reply>
        ensures { IsBlockedBy (view_of self.now) pass id lock result }
    {
        let holder = self.locks.blocks(pass, id, lock == Lock::Owned)?;
        Some(Reply::Busy { pass: holder })
    }

    /// The object that the register names, which the client may share; or the first refusal that applies.
    fn shareable(&self, pass: u8, r: u8) -> Result<u32, Reply>
        requires { r < 8 }
        ensures ok { IfOk result (IsShareable (view_of self.now) pass r) }
        ensures err { IfErr result (λ reply. IsRefused SLOTS (view_of self.now) pass (Call.GetPay r) reply) }
    {
        let id = transactions::subject(&self.transactions, pass, r)?;
        match self.blocked(pass, id, Lock::Shared) {
            Some(reply) => Err(reply),
            None => Ok(id),
        }
    }

    /// The object that the register names, which the client may own; or the first refusal that applies.
    fn ownable(&self, pass: u8, r: u8) -> Result<u32, Reply>
        requires { r < 8 }
        ensures ok { IfOk result (IsOwnable (view_of self.now) pass r) }
        ensures err { IfErr result (λ reply. (value : ℕ) → IsRefused SLOTS (view_of self.now) pass (Call.SetPay r value) reply) }
    {
        let id = transactions::subject(&self.transactions, pass, r)?;
        match self.blocked(pass, id, Lock::Owned) {
            Some(reply) => Err(reply),
            None => Ok(id),
        }
    }

    /// The object that the register names, whose shared lock the client may give back; or the first refusal that applies.
    fn releasable(&self, pass: u8, r: u8) -> Result<u32, Reply>
        requires { r < 8 }
        ensures ok { IfOk result (IsReleasable (view_of self.now) pass r) }
        ensures err { IfErr result (λ reply. IsRefused SLOTS (view_of self.now) pass (Call.Release r) reply) }
    {
        let id = transactions::subject(&self.transactions, pass, r)?;
        if self.locks.shares(pass, id) {
            Ok(id)
        } else {
            Err(Reply::NotShared)
        }
    }

    fn plan_begin(&self, pass: u8) -> Result<Plan, Reply>
        ensures ok { IfOk result (IsGranted (view_of self.now) pass Call.Begin) }
        ensures err { IfErr result (λ reply. IsRefused SLOTS (view_of self.now) pass Call.Begin reply) }
    {
        if self.transactions.has(pass) {
            return Err(Reply::HasTxn);
        }
        Ok(Plan::Begin)
    }

    fn plan_make(&self, pass: u8, into: u8) -> Result<Plan, Reply>
        ensures ok { IfOk result (IsGranted (view_of self.now) pass (Call.Make into)) }
        ensures err { IfErr result (λ reply. IsRefused SLOTS (view_of self.now) pass (Call.Make into) reply) }
    {
        if let Some(reply) = transactions::not_running(&self.transactions, pass) {
            return Err(reply);
        }
        match self.free.least() {
            Some(id) => Ok(Plan::Make { id, into }),
            None => Err(Reply::Full),
        }
    }

    fn plan_store(&self, pass: u8, r: u8, slot: u8, from: Option<u8>) -> Result<Plan, Reply>
        requires register { r < 8 }
        requires source { IfSome from (λ f. f < 8) }
        ensures ok { IfOk result (IsGranted (view_of self.now) pass (Call.Store r slot from)) }
        ensures err { IfErr result (λ reply. IsRefused SLOTS (view_of self.now) pass (Call.Store r slot from) reply) }
    {
        match transactions::subject_and_source(&self.transactions, pass, r, from) {
            Err(reply) => Err(reply),
            Ok((id, target)) => match self.blocked(pass, id, Lock::Owned) {
                Some(reply) => Err(reply),
                None => Ok(Plan::Store { id, slot, target }),
            },
        }
    }

    fn plan_commit(&self, pass: u8) -> Result<Plan, Reply>
        ensures ok { IfOk result (IsGranted (view_of self.now) pass Call.Commit) }
        ensures err { IfErr result (λ reply. IsRefused SLOTS (view_of self.now) pass Call.Commit reply) }
    {
        match transactions::not_running(&self.transactions, pass) {
            Some(reply) => Err(reply),
            None => Ok(Plan::Commit),
        }
    }

    /// What the call does, or the first refusal that applies.
    pub(crate) fn plan(&self, pass: u8, call: &Call) -> Result<Plan, Reply>
        requires in_range { (slots : ℕ) × IsInRange slots call.now }
        requires no_abort { call.now ≡ Call.Abort → running_at self.now.transactions.entries pass ≡ None }
        ensures ok { IfOk result (IsGranted (view_of self.now) pass call.now) }
        ensures err { IfErr result (λ reply. IsRefused SLOTS (view_of self.now) pass call.now reply) }
    {
        match *call {
            Call::Begin => self.plan_begin(pass),
            Call::Read { r, slot, into } => {
                let id = self.shareable(pass, r)?;
                Ok(Plan::Read { id, slot, into })
            }
            Call::Make { into } => self.plan_make(pass, into),
            Call::Store { r, slot, from } => self.plan_store(pass, r, slot, from),
            Call::GetPay { r } => {
                let id = self.shareable(pass, r)?;
                Ok(Plan::Get { id })
            }
            Call::Release { r } => {
                let id = self.releasable(pass, r)?;
                Ok(Plan::Release { id })
            }
            Call::SetPay { r, value } => {
                let id = self.ownable(pass, r)?;
                Ok(Plan::Set { id, value })
            }
            Call::Commit => self.plan_commit(pass),
            Call::Abort => Err(Reply::NoTxn),
        }
    }
}
