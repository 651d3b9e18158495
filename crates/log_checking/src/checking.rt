//! The verdict on the stream that a source gives.
ghost use Rattle.std.specs.Prelude.{◌≡◌};
ghost use Rattle.cell_page.specs.Format.{IsSlotCount};
ghost use Rattle.log_checking.specs.Checked.{refusal_of, told_of, HasChecked, HasCheckCause};

use crate::feeding::feed_from;
use crate::refusal::VerdictRefusal;
use log_checker::{CheckRefusal, Checker, Verdict};
use outside_io::Source;
use ship_stream::streams_have_one_reading;
use standby_feeding::FeedFault;
use std::alloc::Global;

/// The refusal of a stream that isn't read to its end.
fn refusal_of(fault: FeedFault) -> VerdictRefusal
    ensures { result ≡ refusal_of fault }
{
    match fault {
        FeedFault::Read => VerdictRefusal::Read,
        FeedFault::Damaged { at } => VerdictRefusal::Damaged { at },
        FeedFault::Memory => VerdictRefusal::Memory,
    }
}

/// What a checker tells, with the refusal as that of a stream.
fn told(verdict: Result<Verdict, CheckRefusal>) -> Result<Verdict, VerdictRefusal>
    ensures { result ≡ told_of verdict }
{
    match verdict {
        Ok(verdict) => Ok(verdict),
        Err(CheckRefusal::NoBase { len }) => Err(VerdictRefusal::NoBase { len }),
        Err(CheckRefusal::Unsound { id, rule }) => Err(VerdictRefusal::Unsound { id, rule }),
        Err(CheckRefusal::Memory) => Err(VerdictRefusal::Memory),
    }
}

/// Reads a stream from the source, in pieces of a fixed size, up to the source's end or the stream's closed commit byte, and gives the
/// verdict on its pages and its whole batches. A batch that isn't whole at the source's end is left out. Nothing is asked of a disk.
///
/// [`VerdictRefusal::Read`] comes only where the source's count of faults rose. [`VerdictRefusal::Damaged`] comes exactly where the
/// bytes show a fault, and [`VerdictRefusal::NoBase`] exactly where the pages are not all there. [`VerdictRefusal::Unsound`] comes
/// exactly where the cells break a store rule, or an undo can't be done. So where the source tells a stream whose store can be made,
/// none of these three comes.
pub fn check_stream<R: Source, const SLOTS: usize>(
    alloc: Global,
    source: &mut R,
) -> Result<Verdict, VerdictRefusal>
    requires { IsSlotCount SLOTS }
    ensures checked { HasChecked SLOTS (R.left source.old) (R.left source.new) result }
    ensures cause { HasCheckCause (R.faults source.old) (R.faults source.new) result }
{
    let checker: Checker<SLOTS> = match feed_from(alloc, source) {
        Ok(checker) => checker,
        Err(fault) => return Err(refusal_of(fault)),
    };
    streams_have_one_reading();
    told(checker.verdict())
}
