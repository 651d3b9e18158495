//! The command `check`.
ghost use Rattle.std.specs.Prelude.{◌≡◌, ◌≤◌, [], ℕ};
ghost use Rattle.script_lines.specs.Output.{EndsWith};
ghost use Rattle.brahma_shell.specs.Top.{outside};
ghost use Rattle.brahma_shell.specs.Checked.{Checked, status_of_check, check_refusal_line};

use crate::refusing::{refuse, refuse_stream};
use crate::status::{DONE, READ_FAULT, WRITE_FAULT};
use log_checking::{VerdictRefusal, check_stream, write_verdict};
use outside_io::{Sink, Source};
use script_lines::{SLOTS, write_last};
use std::alloc::Global;
use store_opening::OpenRefusal;

/// Writes why there is no verdict on a stream, as the last line, and answers the status.
fn refuse_check<W: Sink>(out: &mut W, refusal: &VerdictRefusal) -> u8
    ensures status { result ≡ status_of_check refusal.now }
    ensures last { EndsWith (W.written out.old) (W.written out.new) (W.faults out.old) (W.faults out.new) [] (check_refusal_line refusal.now) }
    ensures later { W.faults out.old ≤ W.faults out.new }
{
    match *refusal {
        VerdictRefusal::Read => {
            write_last(out, b"refused: read\n");
            READ_FAULT
        }
        VerdictRefusal::Damaged { at } => refuse_stream(out, at),
        VerdictRefusal::NoBase { len } => refuse_stream(out, len),
        VerdictRefusal::Unsound { id, rule } => refuse(out, &OpenRefusal::Unsound { id, rule }),
        VerdictRefusal::Memory => refuse(out, &OpenRefusal::Memory),
    }
}

/// Reads the stream that the source gives, writes the verdict on it, and answers the status. It has no disk.
pub(crate) fn check_source<R: Source, W: Sink>(alloc: Global, script: &mut R, out: &mut W) -> u8
    ensures checked { (disk_faults : ℕ) → Checked
        (outside (R.left script.old) (R.faults script.old) (W.written out.old) (W.faults out.old) disk_faults)
        (outside (R.left script.new) (R.faults script.new) (W.written out.new) (W.faults out.new) disk_faults)
        result }
    ensures read_later { R.faults script.old ≤ R.faults script.new }
    ensures out_later { W.faults out.old ≤ W.faults out.new }
{
    match check_stream::<R, SLOTS>(alloc, script) {
        Ok(verdict) => match write_verdict(out, &verdict) {
            Ok(()) => DONE,
            Err(_) => WRITE_FAULT,
        },
        Err(refusal) => refuse_check(out, &refusal),
    }
}
