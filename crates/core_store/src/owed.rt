//! What transactions owe a log, and what a call needs of it.
ghost use Rattle.std.specs.Prelude.{◌≡◌, ◌≤◌};
ghost use Rattle.core_store.specs.Owed.{CallOwesLaw, CommitOwesLaw, RefusedOwesLaw, UndoOwesLaw, EndOwesLaw, bytes_needed, bytes_logged};

use plain_model::Call;

/// A log that has room for what a call needs, beside what was owed, has room for its record and for all that is owed then.
/// The records of undo steps and of the ends of aborts were owed.
pub fn records_have_owed_room()
    ensures call { CallOwesLaw }
    ensures commit { CommitOwesLaw }
    ensures refused { RefusedOwesLaw }
    ensures undo { UndoOwesLaw }
    ensures end { EndOwesLaw }
{}

/// How many bytes of a log a call may take that isn't refused, and its transaction then owe.
pub fn bytes_needed(call: &Call) -> u64
    ensures value { result ≡ bytes_needed call.now }
    ensures logged { bytes_logged call.now ≤ 25 }
    ensures few { result ≤ 47 }
{
    match call {
        Call::Begin => 9,
        Call::Make { .. } => 6,
        Call::Store { .. } => 43,
        Call::SetPay { .. } => 47,
        Call::Read { .. }
        | Call::GetPay { .. }
        | Call::Release { .. }
        | Call::Commit
        | Call::Abort => 0,
    }
}
