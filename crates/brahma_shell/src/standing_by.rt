//! The command `standby`.
ghost use Rattle.std.specs.Prelude.{◌≡◌, ◌≤◌, []};
ghost use Rattle.script_lines.specs.Output.{EndsWith};
ghost use Rattle.brahma_shell.specs.Ended.{disk_in};
ghost use Rattle.brahma_shell.specs.Top.{GoesLater, outside};
ghost use Rattle.brahma_shell.specs.StoodBy.{StoodBy, status_of_stream, stream_refusal_line};

use crate::ended::Ended;
use crate::refusing::{refuse, refuse_stream};
use crate::status::{DONE, READ_FAULT, WRITE_FAULT};
use disk_model::Disk;
use outside_io::{Sink, Source};
use script_lines::{SLOTS, write_last};
use standby_feeding::{StreamRefusal, stand_by, write_promoted};
use std::alloc::Global;
use store_opening::OpenRefusal;

/// Writes why no store is made of a stream, as the last line, and answers the status.
fn refuse_standby<W: Sink>(out: &mut W, refusal: &StreamRefusal) -> u8
    ensures status { result ≡ status_of_stream refusal.now }
    ensures last { EndsWith (W.written out.old) (W.written out.new) (W.faults out.old) (W.faults out.new) [] (stream_refusal_line refusal.now) }
    ensures later { W.faults out.old ≤ W.faults out.new }
{
    match *refusal {
        StreamRefusal::Read => {
            write_last(out, b"refused: read\n");
            READ_FAULT
        }
        StreamRefusal::Damaged { at } => refuse_stream(out, at),
        StreamRefusal::NoBase { len } => refuse_stream(out, len),
        StreamRefusal::Unsound { id, rule } => refuse(out, &OpenRefusal::Unsound { id, rule }),
        StreamRefusal::Disk => refuse(out, &OpenRefusal::Disk),
        StreamRefusal::Memory => refuse(out, &OpenRefusal::Memory),
    }
}

/// Makes the disk anew as the store of the stream that the source gives, writes how many whole batches that had and what is stored,
/// and answers the status.
pub(crate) fn make_standby<R: Source, W: Sink, D: Disk>(
    alloc: Global,
    script: &mut R,
    out: &mut W,
    disk: D,
) -> (u8, Ended<D>)
    ensures stood_by { StoodBy D.may_leave D.moment D.left_since disk
        (outside (R.left script.old) (R.faults script.old) (W.written out.old) (W.faults out.old) (D.faults disk))
        (outside (R.left script.new) (R.faults script.new) (W.written out.new) (W.faults out.new) (D.faults (disk_in result.1)))
        result.0 result.1 }
    ensures later { GoesLater
        (outside (R.left script.old) (R.faults script.old) (W.written out.old) (W.faults out.old) (D.faults disk))
        (outside (R.left script.new) (R.faults script.new) (W.written out.new) (W.faults out.new) (D.faults (disk_in result.1))) }
{
    let (stood, disk) = stand_by::<R, D, SLOTS>(alloc, script, disk);
    let promoted = match stood {
        Ok(promoted) => promoted,
        Err(refusal) => return (refuse_standby(out, &refusal), Ended::Shut(disk)),
    };
    match write_promoted(out, &promoted) {
        Ok(()) => (DONE, Ended::Shut(disk)),
        Err(_) => (WRITE_FAULT, Ended::Shut(disk)),
    }
}
