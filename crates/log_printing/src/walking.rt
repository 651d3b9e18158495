//! The records of a log, printed one after another.
ghost use Rattle.std.specs.Prelude.{◌≡◌, ◌⊎◌, ◌+◌, ◌<◌, ◌≤◌, ◌^◌, ℕ, List, [], length, take, IfOk, IfErr, IfSome, OnOk, IsErrOf, MatchOption};
ghost use Rattle.std.specs.Io.KnownBytes.{Appends};
ghost use Rattle.cell_page.specs.Format.{IsSlotCount};
ghost use Rattle.script_lines.specs.Output.{AppendsFront};
ghost use Rattle.store_opening.specs.Looks.{IsLookedAt};
ghost use Rattle.log_printing.specs.declared.walking.WalkFault.TheVariants.{Disk, Write, Changed};
ghost use Rattle.log_printing.specs.Window.{IsWindow};
ghost use Rattle.log_printing.specs.Walks.{first_place, place_of, PrintsTo, PrintsFront, PrintsAll, IsNoPlace, HasWalkCause};

use crate::record_lines::record_line;
use crate::window::{Window, byte_at, find, size_at};
use current_log::FoundLog;
use disk_model::Disk;
use log_record::Record;
use outside_io::Sink;
use script_lines::write_all;

/// No record takes more bytes: the image of a page of fourteen slots.
const LONGEST: u64 = 1027;

/// An open commit byte.
const OPEN: u8 = 1;

/// How many bytes stand in front of a body: its commit byte and its length.
const FRONT: u64 = 5;

/// Where the next record stands in a log, and where the body ends in which it stands. Where both are the same, the next commit byte
/// stands there.
#[derive(Clone, Copy, Debug, PartialEq, Eq)]
pub(crate) struct Span {
    pub(crate) at: u64,
    pub(crate) end: u64,
}

/// Why not all records were printed.
#[derive(Clone, Copy, Debug, PartialEq, Eq)]
pub(crate) enum WalkFault {
    /// The disk failed a call.
    Disk,
    /// The sink failed a call.
    Write,
    /// The bytes are no longer those of the log that was tested.
    Changed {
        /// The offset in the log area, in bytes, where they are others.
        at: u64,
    },
}

/// The body of the batch whose commit byte stands at this offset, or nothing where that is closed.
fn enter<D: Disk>(
    disk: &mut D,
    log: FoundLog,
    window: &mut Window,
    at: u64,
) -> Result<Option<Span>, WalkFault>
    requires within { at < log.len }
    requires window { IsWindow log.len (D.content disk.old log.area) window.old }
    ensures found { (slots : ℕ) → IfOk result (λ next. IfSome (D.content disk.old log.area) (λ c.
        MatchOption next (PrintsAll slots (take log.len c) (record { at = at; end = at }) []) (λ s. PrintsTo slots (take log.len c) (record { at = at; end = at }) (place_of s) []))) }
    ensures goes_on { IfOk result (λ next. IfSome next (λ s. (at < s.at) × (s.at ≤ s.end) × (s.end < log.len))) }
    ensures changed { (slots place : ℕ) → IsErrOf result (Changed place) → IfSome (D.content disk.old log.area) (λ c. IsNoPlace slots (take log.len c) (record { at = at; end = at })) }
    ensures unwritten { IsErrOf result Write → ⊥ }
    ensures window { IsWindow log.len (D.content disk.new log.area) window.new }
    ensures looks { IsLookedAt D.content D.may_leave D.moment D.left_since disk.old disk.new }
    ensures cause { HasWalkCause (D.faults disk.old) (D.faults disk.new) 0 0 result }
{
    let byte = match byte_at(disk, log, window, at) {
        Ok(byte) => byte,
        Err(_) => return Err(WalkFault::Disk),
    };
    if byte != OPEN {
        return Ok(None);
    }
    if log.len - at <= FRONT {
        return Err(WalkFault::Changed { at });
    }
    let size = match size_at(disk, log, window, at + 1) {
        Ok(size) => size as u64,
        Err(_) => return Err(WalkFault::Disk),
    };
    if log.len - at - FRONT <= size {
        return Err(WalkFault::Changed { at });
    }
    let start = at + FRONT;
    Ok(Some(Span {
        at: start,
        end: start + size,
    }))
}

/// Prints the record that stands here, and answers where the next one does.
fn print_record<D: Disk, W: Sink, const SLOTS: usize>(
    disk: &mut D,
    log: FoundLog,
    window: &mut Window,
    span: Span,
    out: &mut W,
) -> Result<Span, WalkFault>
    requires count { IsSlotCount SLOTS }
    requires some { span.at < span.end }
    requires within { span.end < log.len }
    requires window { IsWindow log.len (D.content disk.old log.area) window.old }
    ensures printed { IfOk result (λ next. (line : List ℕ) × Appends (W.written out.old) (W.written out.new) line
        × IfSome (D.content disk.old log.area) (λ c. PrintsTo SLOTS (take log.len c) (place_of span) (place_of next) line)) }
    ensures goes_on { IfOk result (λ next. (span.at < next.at) × (next.at ≤ next.end) × (next.end < log.len)) }
    ensures write { IsErrOf result Write → (line : List ℕ) × AppendsFront (W.written out.old) (W.written out.new) line
        × IfSome (D.content disk.old log.area) (λ c. PrintsFront SLOTS (take log.len c) (place_of span) line) }
    ensures changed { (place : ℕ) → IsErrOf result (Changed place) → IfSome (D.content disk.old log.area) (λ c. IsNoPlace SLOTS (take log.len c) (place_of span)) }
    ensures unwritten { IfErr result (λ e. (e ≡ Write) ⊎ Appends (W.written out.old) (W.written out.new) []) }
    ensures window { IsWindow log.len (D.content disk.new log.area) window.new }
    ensures looks { IsLookedAt D.content D.may_leave D.moment D.left_since disk.old disk.new }
    ensures cause { HasWalkCause (D.faults disk.old) (D.faults disk.new) (W.faults out.old) (W.faults out.new) result }
{
    let size = (span.end - span.at).min(LONGEST) as usize;
    let start = match find(disk, log, window, span.at, size) {
        Ok(start) => start,
        Err(_) => return Err(WalkFault::Disk),
    };
    match Record::<SLOTS>::read(&window.bytes[start..start + size]) {
        Ok((rec, len)) => {
            let line = record_line(span.at, &rec);
            match write_all(out, line.as_str().as_bytes()) {
                Ok(()) => Ok(Span {
                    at: span.at + len as u64,
                    end: span.end,
                }),
                Err(_) => Err(WalkFault::Write),
            }
        }
        Err(_) => Err(WalkFault::Changed { at: span.at }),
    }
}

/// Goes to the next record, into the next body where this one has ended, and prints it. It answers where the one after it stands,
/// or where the next body begins; or nothing at the log's end.
fn print_next<D: Disk, W: Sink, const SLOTS: usize>(
    disk: &mut D,
    log: FoundLog,
    window: &mut Window,
    span: Span,
    out: &mut W,
) -> Result<Option<Span>, WalkFault>
    requires count { IsSlotCount SLOTS }
    requires ordered { span.at ≤ span.end }
    requires within { span.end < log.len }
    requires window { IsWindow log.len (D.content disk.old log.area) window.old }
    ensures printed { IfOk result (λ next. (line : List ℕ) × Appends (W.written out.old) (W.written out.new) line
        × IfSome (D.content disk.old log.area) (λ c. MatchOption next (PrintsAll SLOTS (take log.len c) (place_of span) line) (λ s. PrintsTo SLOTS (take log.len c) (place_of span) (place_of s) line))) }
    ensures goes_on { IfOk result (λ next. IfSome next (λ s. (span.at < s.at) × (s.at ≤ s.end) × (s.end < log.len))) }
    ensures write { IsErrOf result Write → (line : List ℕ) × AppendsFront (W.written out.old) (W.written out.new) line
        × IfSome (D.content disk.old log.area) (λ c. PrintsFront SLOTS (take log.len c) (place_of span) line) }
    ensures changed { (place : ℕ) → IsErrOf result (Changed place) → IfSome (D.content disk.old log.area) (λ c. IsNoPlace SLOTS (take log.len c) (place_of span)) }
    ensures unwritten { IfErr result (λ e. (e ≡ Write) ⊎ Appends (W.written out.old) (W.written out.new) []) }
    ensures window { IsWindow log.len (D.content disk.new log.area) window.new }
    ensures looks { IsLookedAt D.content D.may_leave D.moment D.left_since disk.old disk.new }
    ensures cause { HasWalkCause (D.faults disk.old) (D.faults disk.new) (W.faults out.old) (W.faults out.new) result }
{
    if span.at == span.end {
        return enter(disk, log, window, span.at);
    }
    match print_record::<D, W, SLOTS>(disk, log, window, span, out) {
        Ok(next) => Ok(Some(next)),
        Err(fault) => Err(fault),
    }
}

/// Prints the records of the log, one after another. The log is read in pieces of a fixed size.
pub(crate) fn print_records<D: Disk, W: Sink, const SLOTS: usize>(
    disk: &mut D,
    log: FoundLog,
    out: &mut W,
) -> Result<(), WalkFault>
    requires count { IsSlotCount SLOTS }
    requires there { IfSome (D.content disk.old log.area) (λ c. log.len ≤ length c) }
    ensures all { OnOk result ((text : List ℕ) × Appends (W.written out.old) (W.written out.new) text
        × IfSome (D.content disk.old log.area) (λ c. PrintsAll SLOTS (take log.len c) first_place text)) }
    ensures write { IsErrOf result Write → (text : List ℕ) × AppendsFront (W.written out.old) (W.written out.new) text
        × IfSome (D.content disk.old log.area) (λ c. PrintsFront SLOTS (take log.len c) first_place text) }
    ensures disk { IsErrOf result Disk → (text : List ℕ) × Appends (W.written out.old) (W.written out.new) text
        × IfSome (D.content disk.old log.area) (λ c. PrintsFront SLOTS (take log.len c) first_place text) }
    ensures changed { (place : ℕ) → IsErrOf result (Changed place) → (text : List ℕ) × Appends (W.written out.old) (W.written out.new) text
        × IfSome (D.content disk.old log.area) (λ c. IsNoPlace SLOTS (take log.len c) first_place) }
    ensures looks { IsLookedAt D.content D.may_leave D.moment D.left_since disk.old disk.new }
    ensures cause { HasWalkCause (D.faults disk.old) (D.faults disk.new) (W.faults out.old) (W.faults out.new) result }
{
    if log.len == 0 {
        return Err(WalkFault::Changed { at: 0 });
    }
    let mut window = Window::new();
    let mut span = Span { at: 0, end: 0 };
    'records: loop {
        match print_next::<D, W, SLOTS>(disk, log, &mut window, span, out) {
            Ok(Some(next)) => span = next,
            Ok(None) => return Ok(()),
            Err(fault) => return Err(fault),
        }
    }
}
