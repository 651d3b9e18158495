//! Lines that are written whole, or as far as the sink takes them.
ghost use Rattle.std.specs.Prelude.{◌≡◌, ◌≤◌, [], OnOk, IfErr};
ghost use Rattle.std.specs.Io.KnownBytes.{Appends};
ghost use Rattle.disk_model.specs.Causes.{Rose};
ghost use Rattle.script_lines.specs.Output.{AppendsFront, EndsWith};
ghost use Rattle.map_calls.specs.Views.{failure_line, status_of_failure, unopened_line, status_of_unopened, status_of_refusal};
ghost use Rattle.map_script.specs.Stopping.{last_line, status_of};

use crate::stop::Stop;
use arrayvec::ArrayString;
use map_calls::{Failure, LINE_ROOM, Unopened, no_map_line};
use outside_io::Sink;
use script_lines::{open_refusal_line, refused_line, write_all, write_last};
use store_opening::OpenRefusal;

/// The source failed.
const READ_FAULT: u8 = 4;

/// The sink failed.
const WRITE_FAULT: u8 = 5;

/// The disk failed.
const DISK_FAULT: u8 = 6;

/// A line of the script was refused.
const SCRIPT_REFUSED: u8 = 3;

/// The disk holds no store, or none that is sound, or one that keeps no map.
const STORE_REFUSED: u8 = 7;

/// Out of memory.
const OUT_OF_MEMORY: u8 = 8;

/// The history is full, or the log.
const LIMIT: u8 = 9;

/// Writes a whole line, or a front of it where the sink fails.
pub(crate) fn print<W: Sink>(out: &mut W, line: &[u8]) -> Result<(), Stop>
    ensures ok { OnOk result (Appends (W.written out.old) (W.written out.new) line.now) }
    ensures err { IfErr result (λ s. (s ≡ Stop.Write)
        × AppendsFront (W.written out.old) (W.written out.new) line.now
        × Rose (W.faults out.old) (W.faults out.new)) }
    ensures later { W.faults out.old ≤ W.faults out.new }
{
    match write_all(out, line) {
        Ok(()) => Ok(()),
        Err(_) => Err(Stop::Write),
    }
}

/// Writes a whole line that was spelled, or a front of it where the sink fails.
pub(crate) fn tell<W: Sink>(out: &mut W, line: &ArrayString<LINE_ROOM>) -> Result<(), Stop>
    ensures ok { OnOk result (Appends (W.written out.old) (W.written out.new) line.now.bytes) }
    ensures err { IfErr result (λ s. (s ≡ Stop.Write)
        × AppendsFront (W.written out.old) (W.written out.new) line.now.bytes
        × Rose (W.faults out.old) (W.faults out.new)) }
    ensures later { W.faults out.old ≤ W.faults out.new }
{
    print(out, line.as_str().as_bytes())
}

/// Writes why a call failed, as the last line, and answers the status.
fn end_failed<W: Sink>(out: &mut W, failure: Failure) -> u8
    ensures status { result ≡ status_of_failure failure }
    ensures last { EndsWith (W.written out.old) (W.written out.new) (W.faults out.old) (W.faults out.new) [] (failure_line failure) }
    ensures later { W.faults out.old ≤ W.faults out.new }
{
    match failure {
        Failure::Disk => {
            write_last(out, b"refused: disk\n");
            DISK_FAULT
        }
        Failure::HistoryFull => {
            write_last(out, b"refused: trace\n");
            LIMIT
        }
        Failure::LogFull => {
            write_last(out, b"refused: log\n");
            LIMIT
        }
        Failure::Memory => {
            write_last(out, b"refused: memory\n");
            OUT_OF_MEMORY
        }
    }
}

/// The status of a store that isn't opened.
fn status_of_refusal(refusal: &OpenRefusal) -> u8
    ensures { result ≡ status_of_refusal refusal.now }
{
    match refusal {
        OpenRefusal::Disk => DISK_FAULT,
        OpenRefusal::Memory => OUT_OF_MEMORY,
        OpenRefusal::LogFull => LIMIT,
        OpenRefusal::Damaged { .. } => STORE_REFUSED,
        OpenRefusal::NoStore => STORE_REFUSED,
        OpenRefusal::UnknownVersion { .. } => STORE_REFUSED,
        OpenRefusal::Unsound { .. } => STORE_REFUSED,
    }
}

/// Writes why a store that keeps a map isn't opened, as the last line, and answers the status.
pub fn end_unopened<W: Sink>(out: &mut W, unopened: &Unopened) -> u8
    ensures status { result ≡ status_of_unopened unopened.now }
    ensures last { EndsWith (W.written out.old) (W.written out.new) (W.faults out.old) (W.faults out.new) [] (unopened_line unopened.now) }
    ensures later { W.faults out.old ≤ W.faults out.new }
{
    match unopened {
        Unopened::Power => end_failed(out, Failure::Disk),
        Unopened::Refused(refusal) => {
            write_last(out, open_refusal_line(refusal).as_str().as_bytes());
            status_of_refusal(refusal)
        }
        Unopened::NoMap { id } => {
            write_last(out, no_map_line(*id).as_str().as_bytes());
            STORE_REFUSED
        }
        Unopened::Unread(failure) => end_failed(out, *failure),
    }
}

/// Writes the last line of a script that stopped, and answers the status. Where the sink had failed nothing is written.
pub(crate) fn end_stopped<W: Sink>(out: &mut W, stop: Stop) -> u8
    ensures status { result ≡ status_of stop }
    ensures last { EndsWith (W.written out.old) (W.written out.new) (W.faults out.old) (W.faults out.new) [] (last_line stop) }
    ensures later { W.faults out.old ≤ W.faults out.new }
{
    match stop {
        Stop::Line(number) => {
            write_last(out, refused_line(number).as_str().as_bytes());
            SCRIPT_REFUSED
        }
        Stop::Read => {
            write_last(out, b"refused: read\n");
            READ_FAULT
        }
        Stop::Write => WRITE_FAULT,
        Stop::Failed(failure) => end_failed(out, failure),
        Stop::Unopened(unopened) => end_unopened(out, &unopened),
    }
}
