//! Why a call of the map fails.
ghost use Rattle.std.specs.Prelude.{◌≡◌};
ghost use Rattle.stored_map.specs.Steps.{failure_of, failure_in, is_full};

use map_calls::Failure;
use object_map::MapRefusal;
use plain_model::Reply;

/// The failure that a reply tells.
pub(crate) fn failure_of(reply: Reply) -> Failure
    ensures { result ≡ failure_of reply }
{
    match reply {
        Reply::Memory => Failure::Memory,
        Reply::TraceFull => Failure::HistoryFull,
        Reply::LogFull => Failure::LogFull,
        Reply::Again { .. } => Failure::Disk,
        Reply::Stopped { .. } => Failure::Disk,
        Reply::DiskFault => Failure::Disk,
        Reply::Done => Failure::Disk,
        Reply::Id(_) => Failure::Disk,
        Reply::Pay(_) => Failure::Disk,
        Reply::NoTxn => Failure::Disk,
        Reply::HasTxn => Failure::Disk,
        Reply::Aborting => Failure::Disk,
        Reply::EmptyRegister { .. } => Failure::Disk,
        Reply::NotShared => Failure::Disk,
        Reply::Busy { .. } => Failure::Disk,
        Reply::Full => Failure::Disk,
    }
}

/// The failure that the map's refusal tells.
pub(crate) fn failure_in(refusal: MapRefusal) -> Failure
    ensures { result ≡ failure_in refusal }
{
    match refusal {
        MapRefusal::Memory => Failure::Memory,
        MapRefusal::Store { reply } => failure_of(reply),
        MapRefusal::NotMap { .. } => Failure::Disk,
    }
}

/// Whether the refusal is that every id is stored.
pub(crate) fn is_full(refusal: &MapRefusal) -> bool
    ensures { result ≡ is_full refusal.now }
{
    matches!(refusal, MapRefusal::Store { reply: Reply::Full })
}
