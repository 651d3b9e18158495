//! Refusals are counted.
ghost use Rattle.std.specs.Prelude.{◌≡◌};
ghost use Rattle.shared_store.specs.Passes.{no_refusals, joined_refusals};
ghost use Rattle.shared_store.specs.Calls.{refused_by_call, refused_by_upkeep, refused_disk, refused_trace, refused_log};

use crate::refused::Refused;
use logged_journal::Upkeep;
use plain_model::Reply;

/// Nothing was refused yet.
pub(crate) fn none() -> Refused
    ensures { result ≡ no_refusals }
{
    Refused {
        disk: 0,
        trace: 0,
        log: 0,
    }
}

/// The counts of both.
pub(crate) fn joined(one: Refused, other: Refused) -> Refused
    ensures { result ≡ joined_refusals one other }
{
    Refused {
        disk: one.disk.saturating_add(other.disk),
        trace: one.trace.saturating_add(other.trace),
        log: one.log.saturating_add(other.log),
    }
}

/// One answer more that the disk failed.
pub(crate) fn count_disk(refused: &mut Refused)
    ensures { refused.new ≡ refused_disk refused.old }
{
    refused.disk = refused.disk.saturating_add(1);
}

/// One answer more that the history is full.
pub(crate) fn count_trace(refused: &mut Refused)
    ensures { refused.new ≡ refused_trace refused.old }
{
    refused.trace = refused.trace.saturating_add(1);
}

/// One answer more that the log is full.
pub(crate) fn count_log(refused: &mut Refused)
    ensures { refused.new ≡ refused_log refused.old }
{
    refused.log = refused.log.saturating_add(1);
}

/// Counts the answer of a call.
pub(crate) fn count_call(refused: &mut Refused, reply: &Reply)
    ensures { refused.new ≡ refused_by_call reply.now refused.old }
{
    match reply {
        Reply::Stopped { .. } | Reply::DiskFault => count_disk(refused),
        Reply::TraceFull => count_trace(refused),
        Reply::LogFull => count_log(refused),
        _ => {}
    }
}

/// Counts the answer of upkeep.
pub(crate) fn count_upkeep(refused: &mut Refused, upkeep: Upkeep)
    ensures { refused.new ≡ refused_by_upkeep upkeep refused.old }
{
    match upkeep {
        Upkeep::Stopped { .. } | Upkeep::DiskFault => count_disk(refused),
        Upkeep::TraceFull => count_trace(refused),
        Upkeep::LogFull => count_log(refused),
        Upkeep::Done | Upkeep::Busy { .. } | Upkeep::Memory => {}
    }
}
