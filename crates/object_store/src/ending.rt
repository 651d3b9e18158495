//! How the client's transaction begins and ends at the store below.
ghost use Rattle.std.specs.Prelude.{◌≡◌, ◌⊎◌, None, IfErr, OnOk};
ghost use Rattle.disk_model.specs.Time.{LeavesOnlyImages};
ghost use Rattle.logged_journal.specs.Opens.{OpensDuring};
ghost use Rattle.object_store.specs.Seen.{object_slots, client, state_of, IsQuiet, IsAlone, IsLive};
ghost use Rattle.object_store.specs.Calls.{error_of};
ghost use Rattle.object_store.specs.Ends.{Ends, HasBegun, HasNotBegun, HasCommitted, HasNotCommitted};

use crate::asking::heard;
use crate::error::StoreError;
use crate::{CLIENT, SLOTS};
use disk_model::Disk;
use framed_journal::FramedJournal;
use plain_model::{Call, Reply};

/// Ends the open transaction without its writes, if one is open. Where the disk failed a call before, nothing is done.
pub(crate) fn end_open<D: Disk>(below: &mut FramedJournal<SLOTS, D>)
    requires kept { below.old.failed ≡ None → IsQuiet (state_of below.old) ⊎ IsAlone (state_of below.old) }
    ensures { Ends below.old below.new }
{
    if below.logged().journal().active(CLIENT) {
        let _ = below.abort(CLIENT);
    }
}

/// Begins the transaction.
pub(crate) fn begin<D: Disk>(below: &mut FramedJournal<SLOTS, D>) -> Result<(), StoreError>
    requires quiet { below.old.failed ≡ None → IsQuiet (state_of below.old) }
    ensures begun { OnOk result (HasBegun below.old below.new) }
    ensures refused { IfErr result (λ why. HasNotBegun why below.old below.new) }
{
    // The journal is sound: this call hands the fact out.
    let _ = below.logged().journal().history();
    match below.call(CLIENT, &Call::Begin) {
        Reply::Stopped { .. } => Err(StoreError::Stopped),
        reply => match heard(reply) {
            Ok(_) => Ok(()),
            Err(why) => Err(why),
        },
    }
}

/// The error for a reply that something is short.
fn short(reply: Reply) -> StoreError
    ensures { result ≡ error_of reply }
{
    match reply {
        Reply::TraceFull => StoreError::HistoryFull,
        Reply::LogFull => StoreError::LogFull,
        _ => StoreError::Memory,
    }
}

/// Commits the transaction. Where something is short it is ended without its writes.
pub(crate) fn commit<D: Disk>(below: &mut FramedJournal<SLOTS, D>) -> Result<(), StoreError>
    requires live { IsLive below.old }
    ensures done { OnOk result (HasCommitted below.old below.new) }
    ensures failed { IfErr result (λ why. HasNotCommitted D.faults why below.old below.new) }

    // At each moment of the call a power loss leaves a disk that opens as one does while a commit is made.
    ensures opens { LeavesOnlyImages D.moment D.left_since below.old.disk below.new.disk (OpensDuring object_slots below.old client Call.Commit) }
{
    let reply = below.call(CLIENT, &Call::Commit);
    match reply {
        Reply::Done => Ok(()),
        Reply::DiskFault => Err(StoreError::Disk),
        _ => {
            end_open(below);
            Err(short(reply))
        }
    }
}
