//! The lines of a standby.
ghost use Rattle.std.specs.Prelude.{◌≡◌, ◌++◌, ◌∷◌, decimal, OnOk, OnErr};
ghost use Rattle.std.specs.Io.KnownBytes.{Appends};
ghost use Rattle.disk_model.specs.Causes.{HasCause};
ghost use Rattle.plain_model.specs.Text.{numbers};
ghost use Rattle.script_lines.specs.Output.{AppendsFront};
ghost use Rattle.standby_feeding.specs.Line.{promoted_head, promoted_line, stream_line};

use arrayvec::ArrayString;
use itoa::Buffer;
use outside_io::{Sink, WriteFailed};
use script_lines::{LINE_ROOM, write_all};
use standby::Promoted;

/// How many bytes an id with a blank in front is given room for.
const ID_ROOM: usize = 32;

/// The line's words with the number of batches.
fn promoted_head(batches: u64) -> ArrayString<LINE_ROOM>
    ensures { result.bytes ≡ promoted_head batches }
{
    let mut digits = Buffer::new();
    let mut head = ArrayString::new();
    head.push_str("standby: batches ");
    head.push_str(digits.format(batches));
    head.push_str(" stored");
    head
}

/// A blank and the digits of an id.
fn id_text(id: u32) -> ArrayString<ID_ROOM>
    ensures { result.bytes ≡ 32 ∷ decimal id }
{
    let mut digits = Buffer::new();
    let mut text = ArrayString::new();
    text.push_str(" ");
    text.push_str(digits.format(id));
    text
}

/// Writes the line's words with the number of batches.
fn write_head<W: Sink>(out: &mut W, batches: u64) -> Result<(), WriteFailed>
    ensures ok { OnOk result (Appends (W.written out.old) (W.written out.new) (promoted_head batches)) }
    ensures front { OnErr result (AppendsFront (W.written out.old) (W.written out.new) (promoted_head batches)) }
    ensures cause { HasCause (W.faults out.old) (W.faults out.new) result }
{
    let head = promoted_head(batches);
    write_all(out, head.as_str().as_bytes())
}

/// Writes a blank and the digits of an id.
fn write_id<W: Sink>(out: &mut W, id: u32) -> Result<(), WriteFailed>
    ensures ok { OnOk result (Appends (W.written out.old) (W.written out.new) (32 ∷ decimal id)) }
    ensures front { OnErr result (AppendsFront (W.written out.old) (W.written out.new) (32 ∷ decimal id)) }
    ensures cause { HasCause (W.faults out.old) (W.faults out.new) result }
{
    let text = id_text(id);
    write_all(out, text.as_str().as_bytes())
}

/// Writes a blank and the digits, for each of the ids.
fn write_ids<W: Sink>(out: &mut W, ids: &[u32]) -> Result<(), WriteFailed>
    ensures ok { OnOk result (Appends (W.written out.old) (W.written out.new) (numbers ids.now)) }
    ensures front { OnErr result (AppendsFront (W.written out.old) (W.written out.new) (numbers ids.now)) }
    ensures cause { HasCause (W.faults out.old) (W.faults out.new) result }
{
    'ids: for id in ids {
        match write_id(out, *id) {
            Ok(()) => {}
            Err(failed) => return Err(failed),
        }
    }
    Ok(())
}

/// Writes the line of a standby that was promoted: how many whole batches it was fed with, and the ids that are stored. It takes no
/// memory.
///
/// [`WriteFailed`] comes only where the sink's count of faults rose in this call. A front of the line was written then, and not all.
pub fn write_promoted<W: Sink>(out: &mut W, promoted: &Promoted) -> Result<(), WriteFailed>
    ensures ok { OnOk result (Appends (W.written out.old) (W.written out.new) (promoted_line promoted.now)) }
    ensures front { OnErr result (AppendsFront (W.written out.old) (W.written out.new) (promoted_line promoted.now)) }
    ensures cause { HasCause (W.faults out.old) (W.faults out.new) result }
{
    match write_head(out, promoted.batches) {
        Ok(()) => {}
        Err(failed) => return Err(failed),
    }
    match write_ids(out, promoted.stored.items()) {
        Ok(()) => {}
        Err(failed) => return Err(failed),
    }
    write_all(out, b"\n")
}

/// The last line where a stream has a fault at this offset, or ends there inside of its pages. It takes no memory.
pub fn stream_line(at: u64) -> ArrayString<LINE_ROOM>
    ensures { result.bytes ≡ stream_line at }
{
    let mut digits = Buffer::new();
    let mut line = ArrayString::new();
    line.push_str("refused: stream at ");
    line.push_str(digits.format(at));
    line.push_str("\n");
    line
}
