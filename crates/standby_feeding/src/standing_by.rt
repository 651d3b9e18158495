//! A store that is made of a stream.
ghost use Rattle.std.specs.Prelude.{◌≡◌};
ghost use Rattle.cell_page.specs.Format.{IsSlotCount};
ghost use Rattle.standby_feeding.specs.StoodBy.{refusal_of, told_of, HasStoodBy, HasStreamCause};

use crate::fault::FeedFault;
use crate::feeding::feed_from;
use crate::refusal::StreamRefusal;
use disk_model::Disk;
use outside_io::Source;
use ship_stream::streams_have_one_reading;
use standby::{PromoteRefusal, Promoted, Standby};
use std::alloc::Global;

/// The refusal of a stream that isn't read to its end.
fn refusal_of(fault: FeedFault) -> StreamRefusal
    ensures { result ≡ refusal_of fault }
{
    match fault {
        FeedFault::Read => StreamRefusal::Read,
        FeedFault::Damaged { at } => StreamRefusal::Damaged { at },
        FeedFault::Memory => StreamRefusal::Memory,
    }
}

/// What a promotion tells, with the refusal as that of a stream.
fn told(promoted: Result<Promoted, PromoteRefusal>) -> Result<Promoted, StreamRefusal>
    ensures { result ≡ told_of promoted }
{
    match promoted {
        Ok(promoted) => Ok(promoted),
        Err(PromoteRefusal::Disk) => Err(StreamRefusal::Disk),
        Err(PromoteRefusal::Unsound { id, rule }) => Err(StreamRefusal::Unsound { id, rule }),
        Err(PromoteRefusal::Memory) => Err(StreamRefusal::Memory),
        Err(PromoteRefusal::NoBase { len }) => Err(StreamRefusal::NoBase { len }),
    }
}

/// Reads a stream from the source, in pieces of a fixed size, up to the source's end or the stream's closed commit byte, and makes the
/// disk anew as the store that its pages and its whole batches make, with what has not ended undone. A batch that isn't whole at the
/// source's end is left out.
///
/// [`StreamRefusal::Read`] comes only where the source's count of faults rose, and [`StreamRefusal::Disk`] only where the disk's did.
/// [`StreamRefusal::Damaged`] comes exactly where the bytes show a fault, and [`StreamRefusal::NoBase`] exactly where the pages are
/// not all there. [`StreamRefusal::Unsound`] comes exactly where the cells break a store rule. So where the source tells a stream whose
/// store can be made, none of these three comes. Before each refusal but that of the disk no call of the disk is made.
pub fn stand_by<R: Source, D: Disk, const SLOTS: usize>(
    alloc: Global,
    source: &mut R,
    disk: D,
) -> (Result<Promoted, StreamRefusal>, D)
    requires count { IsSlotCount SLOTS }
    ensures stood_by { HasStoodBy D.may_leave D.moment D.left_since SLOTS (R.left source.old) (R.left source.new) disk result.1 result.0 }
    ensures cause { HasStreamCause (R.faults source.old) (R.faults source.new) (D.faults disk) (D.faults result.1) result.0 }
{
    streams_have_one_reading();
    let standby: Standby<SLOTS> = match feed_from(alloc, source) {
        Ok(standby) => standby,
        Err(fault) => return (Err(refusal_of(fault)), disk),
    };
    let (promoted, disk) = standby.promote(disk);
    (told(promoted), disk)
}
