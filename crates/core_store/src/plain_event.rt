//! What happens that isn't the collector's: calls, undone writes and upkeep.
ghost use Rattle.std.specs.Prelude.{◌≡◌, IfSome};
ghost use Rattle.core_store.specs.Notes.{cause_of, entry_of_cause, entry_of_plain, logged_of_plain, IsRecordOf};

use log_record::CellRecord;
use plain_model::{Call, Entry, Reply};

/// Why something was logged that isn't the collector's: a client's call that was done, or an abort that went on. Where a record
/// tells what the call asked and was answered, this doesn't.
#[derive(Clone, Copy, Debug)]
pub(crate) enum Cause {
    Begin,
    Make { into: u8 },
    Store { r: u8, slot: u8, from: Option<u8> },
    SetPay { r: u8 },
    Commit,
    /// All writes of the transaction were undone, and it ended.
    AbortEnd,
    /// One write of the transaction was undone.
    Undo,
}

/// A call, a write that was undone, or upkeep, with what it logged. `pass` is the client's number.
///
/// What a call logs tells what it was answered, and mostly what it asked. So that stands once, and an event takes 40 bytes in
/// place of 80.
#[derive(Clone, Copy, Debug)]
pub(crate) enum PlainEvent {
    /// A call that logged nothing, with its reply.
    Call {
        pass: u8,
        call: Call,
        reply: Reply,
    },
    /// A call or an undone write that logged this.
    Logged {
        pass: u8,
        cause: Cause,
        logged: CellRecord,
    },
    /// Upkeep of the log or of the pages was done.
    Hidden,
    /// A checkpoint was refused, since this client has a transaction.
    TurnBusy {
        pass: u8,
    },
}

impl Cause {
    /// The call as a cause of what it logged. Reads and releases log nothing, and an abort logs at its end.
    #[inline(always)]
    fn of(call: &Call) -> Cause
        ensures { result ≡ cause_of call.now }
    {
        match *call {
            Call::Begin => Cause::Begin,
            Call::Make { into } => Cause::Make { into },
            Call::Store { r, slot, from } => Cause::Store { r, slot, from },
            Call::SetPay { r, .. } => Cause::SetPay { r },
            Call::Commit => Cause::Commit,
            Call::Read { .. } => Cause::AbortEnd,
            Call::GetPay { .. } => Cause::AbortEnd,
            Call::Release { .. } => Cause::AbortEnd,
            Call::Abort => Cause::AbortEnd,
        }
    }

    /// The history's entry of what the client did for this cause, and logged so.
    fn entry(self, pass: u8, logged: CellRecord) -> Entry
        ensures { result ≡ entry_of_cause pass self logged }
    {
        let (call, reply) = match (self, logged) {
            (Cause::Begin, _) => (Call::Begin, Reply::Done),
            (Cause::Make { into }, CellRecord::Make { id, .. }) => {
                (Call::Make { into }, Reply::Id(id))
            }
            (Cause::Store { r, slot, from }, _) => (Call::Store { r, slot, from }, Reply::Done),
            (Cause::SetPay { r }, CellRecord::Pay { new_value, .. }) => {
                let value = new_value;
                (Call::SetPay { r, value }, Reply::Done)
            }
            (Cause::Commit, _) => (Call::Commit, Reply::Done),
            (Cause::AbortEnd, _) => (Call::Abort, Reply::Done),
            _ => return Entry::Undo { pass },
        };
        Entry::Call { pass, call, reply }
    }
}

impl PlainEvent {
    /// A call that got this reply and logged this.
    #[inline(always)]
    pub(crate) fn of_call(
        pass: u8,
        call: &Call,
        reply: Reply,
        logged: Option<CellRecord>,
    ) -> PlainEvent
        requires { IfSome logged (λ r. IsRecordOf pass call.now reply r) }
        ensures entry { entry_of_plain result ≡ Entry.Call pass call.now reply }
        ensures logged { logged_of_plain result ≡ logged }
    {
        match logged {
            None => {
                let call = *call;
                PlainEvent::Call { pass, call, reply }
            }
            Some(logged) => {
                let cause = Cause::of(call);
                PlainEvent::Logged {
                    pass,
                    cause,
                    logged,
                }
            }
        }
    }

    /// The history's entry of it.
    pub(crate) fn entry(self) -> Entry
        ensures { result ≡ entry_of_plain self }
    {
        match self {
            PlainEvent::Call { pass, call, reply } => Entry::Call { pass, call, reply },
            PlainEvent::Logged {
                pass,
                cause,
                logged,
            } => cause.entry(pass, logged),
            PlainEvent::Hidden => Entry::Hidden,
            PlainEvent::TurnBusy { pass } => Entry::TurnBusy { pass },
        }
    }

    /// What it logged.
    #[inline(always)]
    pub(crate) fn logged(self) -> Option<CellRecord>
        ensures { result ≡ logged_of_plain self }
    {
        match self {
            PlainEvent::Logged { logged, .. } => Some(logged),
            _ => None,
        }
    }
}
