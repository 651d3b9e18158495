//! The line of a verdict.
ghost use Rattle.std.specs.Prelude.{◌≡◌, ◌+◌, ◌≤◌, ◌++◌, OnOk, OnErr};
ghost use Rattle.std.specs.Io.KnownBytes.{Appends};
ghost use Rattle.arrayvec.specs.ArrayString.{array_string_len};
ghost use Rattle.disk_model.specs.Causes.{HasCause};
ghost use Rattle.script_lines.specs.Output.{AppendsFront};
ghost use Rattle.log_checking.specs.Line.{finding, verdict_line};

use arrayvec::ArrayString;
use itoa::Buffer;
use log_checker::Verdict;
use outside_io::{Sink, WriteFailed};
use script_lines::{LINE_ROOM, write_all};

/// Appends where the stored objects are not the effect of just the commits, or that they are.
fn push_finding(line: &mut ArrayString<LINE_ROOM>, differs: Option<u32>)
    requires { array_string_len line.old + 60 ≤ 160 }
    ensures text { line.new.bytes ≡ line.old.bytes ++ finding differs }
    ensures short { array_string_len line.new ≤ array_string_len line.old + 60 }
{
    match differs {
        None => line.push_str(" yes"),
        Some(id) => {
            let mut digits = Buffer::new();
            line.push_str(" no ");
            line.push_str(digits.format(id));
        }
    }
}

/// The line of a verdict. It takes no memory.
fn verdict_line(verdict: &Verdict) -> ArrayString<LINE_ROOM>
    ensures { result.bytes ≡ verdict_line verdict.now }
{
    let mut digits = Buffer::new();
    let mut line = ArrayString::new();
    line.push_str("check: commits ");
    line.push_str(digits.format(verdict.commits));
    push_finding(&mut line, verdict.differs);
    line.push_str("\n");
    line
}

/// Writes the line of a verdict: how many commits there are, and whether the stored objects are the effect of just these, or the least
/// id at which they are not. It takes no memory.
///
/// [`WriteFailed`] comes only where the sink's count of faults rose in this call. A front of the line was written then, and not all.
pub fn write_verdict<W: Sink>(out: &mut W, verdict: &Verdict) -> Result<(), WriteFailed>
    ensures ok { OnOk result (Appends (W.written out.old) (W.written out.new) (verdict_line verdict.now)) }
    ensures front { OnErr result (AppendsFront (W.written out.old) (W.written out.new) (verdict_line verdict.now)) }
    ensures cause { HasCause (W.faults out.old) (W.faults out.new) result }
{
    let line = verdict_line(verdict);
    write_all(out, line.as_str().as_bytes())
}
