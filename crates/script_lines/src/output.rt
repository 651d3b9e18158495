//! Printed lines.
ghost use Rattle.std.specs.Prelude.{◌≡◌, ◌+◌, ◌<◌, ◌≤◌, ◌++◌, [], ◌∷◌, IfOk, OnOk, OnErr, string_bytes, codes, length, decimal};
ghost use Rattle.std.specs.Io.KnownBytes.{Appends};
ghost use Rattle.arrayvec.specs.ArrayString.{array_string_len};
ghost use Rattle.plain_model.specs.Text.{line_of, stored_line, numbers, newline, verb, reply_text};
ghost use Rattle.disk_model.specs.Causes.{HasCause};
ghost use Rattle.script_lines.specs.Output.{AppendsFront, EndsWith, refused_line, pages_line, audit_line, par_audit_line, generated_line, damage_text, open_refusal_text, open_refusal_line, crash_line};

use arrayvec::ArrayString;
use itoa::Buffer;
use outside_io::{Sink, WriteFailed};
use plain_model::{Call, Entry, Memory, Reply};
use std::alloc::Global;
use store_opening::{OpenRefusal, Place};

/// The bytes that the longest printed line takes but for those with ids.
pub const LINE_ROOM: usize = 160;

/// The bytes that the longest line of a call takes, and some more.
const CALL_ROOM: usize = 64;

#[inline(always)]
fn push_number<const CAP: usize>(line: &mut ArrayString<CAP>, number: u64)
    requires { array_string_len line.old + 20 ≤ CAP }
    ensures text { line.new.bytes ≡ line.old.bytes ++ decimal number }
    ensures short { array_string_len line.new ≤ array_string_len line.old + 20 }
{
    if number < 10 {
        line.push(char::from(b'0' + number as u8));
        return;
    }
    let mut digits = Buffer::new();
    line.push_str(digits.format(number));
}

/// Appends the verb of a call, between a space and what stands before a reply.
#[inline(always)]
fn push_verb<const CAP: usize>(line: &mut ArrayString<CAP>, call: &Call)
    requires { array_string_len line.old + 10 ≤ CAP }
    ensures text { line.new.bytes ≡ line.old.bytes ++ codes " " ++ verb call.now ++ codes ": " }
    ensures short { array_string_len line.new ≤ array_string_len line.old + 10 }
{
    match call {
        Call::Begin => line.push_str(" begin: "),
        Call::Read { .. } => line.push_str(" read: "),
        Call::Make { .. } => line.push_str(" make: "),
        Call::Store { .. } => line.push_str(" store: "),
        Call::GetPay { .. } => line.push_str(" get: "),
        Call::SetPay { .. } => line.push_str(" set: "),
        Call::Release { .. } => line.push_str(" release: "),
        Call::Commit => line.push_str(" commit: "),
        Call::Abort => line.push_str(" abort: "),
    }
}

#[inline(always)]
fn push_reply<const CAP: usize>(line: &mut ArrayString<CAP>, reply: &Reply)
    requires { array_string_len line.old + 26 ≤ CAP }
    ensures text { line.new.bytes ≡ line.old.bytes ++ reply_text reply.now }
    ensures short { array_string_len line.new ≤ array_string_len line.old + 26 }
{
    match *reply {
        Reply::Done => line.push_str("ok"),
        Reply::Id(id) => push_number(line, u64::from(id)),
        Reply::Pay(value) => push_number(line, value),
        Reply::NoTxn => line.push_str("notxn"),
        Reply::HasTxn => line.push_str("hastxn"),
        Reply::Aborting => line.push_str("aborting"),
        Reply::EmptyRegister { reg } => {
            line.push_str("empty ");
            push_number(line, u64::from(reg));
        }
        Reply::NotShared => line.push_str("notshared"),
        Reply::Busy { pass } => {
            line.push_str("busy ");
            push_number(line, u64::from(pass));
        }
        Reply::Full => line.push_str("full"),
        Reply::DiskFault => line.push_str("fault"),
        _ => {}
    }
}

/// Appends the line of a call.
#[inline(always)]
fn push_call<const CAP: usize>(line: &mut ArrayString<CAP>, client: u8, call: &Call, reply: &Reply)
    requires { array_string_len line.old + 57 ≤ CAP }
    ensures { line.new.bytes ≡ line.old.bytes ++ line_of (Entry.Call client call.now reply.now) }
{
    push_number(line, u64::from(client));
    push_verb(line, call);
    push_reply(line, reply);
    line.push_str("\n");
}

/// The line of a call. It takes no memory.
pub fn call_line(client: u8, call: &Call, reply: &Reply) -> ArrayString<LINE_ROOM>
    ensures { result.bytes ≡ line_of (Entry.Call client call.now reply.now) }
{
    let mut line = ArrayString::new();
    push_call(&mut line, client, call, reply);
    line
}

/// Writes the line of a call, or a front of it where the sink fails, and then not all of it. It takes no memory.
pub fn write_call<W: Sink>(
    out: &mut W,
    client: u8,
    call: &Call,
    reply: &Reply,
) -> Result<(), WriteFailed>
    ensures ok { OnOk result (Appends (W.written out.old) (W.written out.new) (line_of (Entry.Call client call.now reply.now))) }
    ensures front { OnErr result (AppendsFront (W.written out.old) (W.written out.new) (line_of (Entry.Call client call.now reply.now))) }
    ensures cause { HasCause (W.faults out.old) (W.faults out.new) result }
{
    let mut line: ArrayString<CALL_ROOM> = ArrayString::new();
    push_call(&mut line, client, call, reply);
    write_all(out, line.as_str().as_bytes())
}

/// The line of a deletion. It takes no memory.
pub fn delete_line(id: u32) -> ArrayString<LINE_ROOM>
    ensures { result.bytes ≡ line_of (Entry.Delete id) }
{
    let mut line = ArrayString::new();
    line.push_str("delete ");
    push_number(&mut line, u64::from(id));
    line.push_str("\n");
    line
}

/// The line of a checkpoint that was refused, since this client has a transaction. It takes no memory.
pub fn turn_busy_line(client: u8) -> ArrayString<LINE_ROOM>
    ensures { result.bytes ≡ line_of (Entry.TurnBusy client) }
{
    let mut line = ArrayString::new();
    line.push_str("turn: busy ");
    push_number(&mut line, u64::from(client));
    line.push_str("\n");
    line
}

/// The last line where the line of this number is refused. It takes no memory.
pub fn refused_line(number: u32) -> ArrayString<LINE_ROOM>
    ensures { result.bytes ≡ refused_line number }
{
    let mut line = ArrayString::new();
    line.push_str("refused: line ");
    push_number(&mut line, u64::from(number));
    line.push_str("\n");
    line
}

/// The line of a store that was made. It takes no memory.
pub fn pages_line(pages: u16) -> ArrayString<LINE_ROOM>
    ensures { result.bytes ≡ pages_line pages }
{
    let mut line = ArrayString::new();
    line.push_str("pages ");
    push_number(&mut line, u64::from(pages));
    line.push_str("\n");
    line
}

/// The line of an audit. It takes no memory.
pub fn audit_line(pages: u64, live: u64, zero: u64, differences: u64) -> ArrayString<LINE_ROOM>
    ensures { result.bytes ≡ audit_line pages live zero differences }
{
    let mut line = ArrayString::new();
    line.push_str("audit: pages ");
    push_number(&mut line, pages);
    line.push_str(" live ");
    push_number(&mut line, live);
    line.push_str(" zero ");
    push_number(&mut line, zero);
    line.push_str(" differences ");
    push_number(&mut line, differences);
    line.push_str("\n");
    line
}

/// The line of a parallel audit. It takes no memory.
pub fn par_audit_line(
    pages: u64,
    live: u64,
    zero: u64,
    differences: u64,
    garbage: u64,
) -> ArrayString<LINE_ROOM>
    ensures { result.bytes ≡ par_audit_line pages live zero differences garbage }
{
    let mut line = ArrayString::new();
    line.push_str("paudit: pages ");
    push_number(&mut line, pages);
    line.push_str(" live ");
    push_number(&mut line, live);
    line.push_str(" zero ");
    push_number(&mut line, zero);
    line.push_str(" differences ");
    push_number(&mut line, differences);
    line.push_str(" garbage ");
    push_number(&mut line, garbage);
    line.push_str("\n");
    line
}

/// The line of generated calls: how many commits and aborts were done, how many replies were `busy`, how many objects were
/// deleted, and how many are stored. It takes no memory.
pub fn generated_line(
    commits: u64,
    aborts: u64,
    busy: u64,
    deleted: u64,
    stored: u64,
) -> ArrayString<LINE_ROOM>
    ensures { result.bytes ≡ generated_line commits aborts busy deleted stored }
{
    let mut line = ArrayString::new();
    line.push_str("gen: commits ");
    push_number(&mut line, commits);
    line.push_str(" aborts ");
    push_number(&mut line, aborts);
    line.push_str(" busy ");
    push_number(&mut line, busy);
    line.push_str(" deleted ");
    push_number(&mut line, deleted);
    line.push_str(" stored ");
    push_number(&mut line, stored);
    line.push_str("\n");
    line
}

/// Appends what is damaged, and where.
fn push_damage(line: &mut ArrayString<LINE_ROOM>, place: Place, at: u64)
    requires { array_string_len line.old + 50 ≤ 160 }
    ensures text { line.new.bytes ≡ line.old.bytes ++ damage_text place at }
    ensures short { array_string_len line.new ≤ array_string_len line.old + 50 }
{
    match place {
        Place::LogA => line.push_str("log A"),
        Place::LogB => line.push_str("log B"),
        Place::Page(page) => {
            line.push_str("page ");
            push_number(line, u64::from(page));
        }
    }
    line.push_str(" at ");
    push_number(line, at);
}

/// Appends why a store isn't opened.
fn push_open_refusal(line: &mut ArrayString<LINE_ROOM>, refusal: &OpenRefusal)
    requires { array_string_len line.old + 60 ≤ 160 }
    ensures text { line.new.bytes ≡ line.old.bytes ++ open_refusal_text refusal.now }
    ensures short { array_string_len line.new ≤ array_string_len line.old + 60 }
{
    match *refusal {
        OpenRefusal::Disk => line.push_str("disk"),
        OpenRefusal::Damaged { place, at } => push_damage(line, place, at),
        OpenRefusal::NoStore => line.push_str("no store"),
        OpenRefusal::UnknownVersion { byte } => {
            line.push_str("version ");
            push_number(line, u64::from(byte));
        }
        OpenRefusal::Unsound { id, rule } => {
            line.push_str("object ");
            push_number(line, u64::from(id));
            line.push_str(" rule ");
            push_number(line, u64::from(rule));
        }
        OpenRefusal::Memory => line.push_str("memory"),
        OpenRefusal::LogFull => line.push_str("log"),
    }
}

/// The last line where a store isn't opened. It takes no memory.
pub fn open_refusal_line(refusal: &OpenRefusal) -> ArrayString<LINE_ROOM>
    ensures { result.bytes ≡ open_refusal_line refusal.now }
{
    let mut line = ArrayString::new();
    line.push_str("refused: ");
    push_open_refusal(&mut line, refusal);
    line.push_str("\n");
    line
}

/// A word, and then ids.
fn ids_line(alloc: Global, head: &str, ids: &[u32]) -> Result<String, Memory>
    ensures { IfOk result (λ line. string_bytes line ≡ head.now ++ numbers ids.now ++ newline ∷ []) }
{
    let mut line = String::from_str(alloc, head)?;
    let mut digits = Buffer::new();
    for id in ids {
        line.push_str(" ")?;
        line.push_str(digits.format(*id))?;
    }
    line.push_str("\n")?;
    Ok(line)
}

/// The line of the stored ids.
pub fn stored_line(alloc: Global, ids: &[u32]) -> Result<String, Memory>
    ensures { IfOk result (λ line. string_bytes line ≡ stored_line ids.now) }
{
    ids_line(alloc, "stored", ids)
}

/// The line of a crash, after which these ids are stored.
pub fn crash_line(alloc: Global, ids: &[u32]) -> Result<String, Memory>
    ensures { IfOk result (λ line. string_bytes line ≡ crash_line ids.now) }
{
    ids_line(alloc, "crash: stored", ids)
}

/// Writes the whole piece, or a front of it where the sink fails, and then not all of it.
#[inline(always)]
pub fn write_all<W: Sink>(out: &mut W, piece: &[u8]) -> Result<(), WriteFailed>
    ensures ok { OnOk result (Appends (W.written out.old) (W.written out.new) piece.now) }
    ensures front { OnErr result (AppendsFront (W.written out.old) (W.written out.new) piece.now) }
    ensures cause { HasCause (W.faults out.old) (W.faults out.new) result }
{
    let mut rest = piece;
    while !rest.is_empty() {
        let count = out.write(rest)?;
        rest = &rest[count..];
    }
    Ok(())
}

/// Writes the last line of a program that ends, as far as the sink takes it: where the sink fails, nothing is told of it.
pub fn write_last<W: Sink>(out: &mut W, line: &[u8])
    ensures ends { EndsWith (W.written out.old) (W.written out.new) (W.faults out.old) (W.faults out.new) [] line.now }
    ensures later { W.faults out.old ≤ W.faults out.new }
{
    let _ = write_all(out, line);
}
