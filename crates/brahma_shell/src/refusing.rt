//! What is told where a store isn't opened, or a stream is refused.
ghost use Rattle.std.specs.Prelude.{◌≡◌, ◌≤◌, []};
ghost use Rattle.script_lines.specs.Output.{EndsWith, open_refusal_line};
ghost use Rattle.standby_feeding.specs.Line.{stream_line};
ghost use Rattle.brahma_shell.specs.Top.{status_of_refusal};

use crate::status::{DISK_FAULT, LIMIT, OUT_OF_MEMORY, SCRIPT_REFUSED, STORE_REFUSED};
use outside_io::Sink;
use script_lines::{open_refusal_line, write_last};
use standby_feeding::stream_line;
use store_opening::OpenRefusal;

/// The status of a store that isn't opened.
fn status_of(refusal: &OpenRefusal) -> u8
    ensures { result ≡ status_of_refusal refusal.now }
{
    match refusal {
        OpenRefusal::Disk => DISK_FAULT,
        OpenRefusal::Memory => OUT_OF_MEMORY,
        OpenRefusal::LogFull => LIMIT,
        OpenRefusal::Damaged { .. } => STORE_REFUSED,
        OpenRefusal::NoStore => STORE_REFUSED,
        OpenRefusal::UnknownVersion { .. } => STORE_REFUSED,
        OpenRefusal::Unsound { .. } => STORE_REFUSED,
    }
}

/// Writes why a store isn't opened, as the last line, and answers the status.
pub(crate) fn refuse<W: Sink>(out: &mut W, refusal: &OpenRefusal) -> u8
    ensures status { result ≡ status_of_refusal refusal.now }
    ensures last { EndsWith (W.written out.old) (W.written out.new) (W.faults out.old) (W.faults out.new) [] (open_refusal_line refusal.now) }
    ensures later { W.faults out.old ≤ W.faults out.new }
{
    write_last(out, open_refusal_line(refusal).as_str().as_bytes());
    status_of(refusal)
}

/// Writes where a stream has a fault, or ends inside of its pages, as the last line, and answers the status.
pub(crate) fn refuse_stream<W: Sink>(out: &mut W, at: u64) -> u8
    ensures status { result ≡ 3 }
    ensures last { EndsWith (W.written out.old) (W.written out.new) (W.faults out.old) (W.faults out.new) [] (stream_line at) }
    ensures later { W.faults out.old ≤ W.faults out.new }
{
    write_last(out, stream_line(at).as_str().as_bytes());
    SCRIPT_REFUSED
}
