//! The command `replay`.
ghost use Rattle.std.specs.Prelude.{◌≡◌, ◌⊎◌, ◌≤◌, ℕ, [], IfOk, IfErr, codes, string_bytes};
ghost use Rattle.std.specs.Io.KnownBytes.{Appends};
ghost use Rattle.plain_model.specs.History.{end_of};
ghost use Rattle.plain_model.specs.Text.{stored_line};
ghost use Rattle.disk_model.specs.Causes.{Rose};
ghost use Rattle.script_lines.specs.Output.{AppendsFront, EndsWith, crash_line};
ghost use Rattle.journal_opening.specs.Openings.{ReadsAs};
ghost use Rattle.brahma_shell.specs.Crashes.{Reopens, StopsCrash, reopened_line};
ghost use Rattle.brahma_shell.specs.Ended.{disk_in};
ghost use Rattle.brahma_shell.specs.Replay.{status_of, last_line};
ghost use Rattle.brahma_shell.specs.Top.{IsJustOpened, IsStatusOfReplay, GoesLater, Unopened, Replayed, outside};
ghost use Rattle.script_lines.specs.Numbers.{object_slots};

use crate::ended::Ended;
use crate::refusing::refuse;
use crate::replay::{Reached, Stop, replay};
use crate::script::Script;
use crate::status::{
    DISK_FAULT, DONE, LIMIT, OUT_OF_MEMORY, READ_FAULT, SCRIPT_REFUSED, WRITE_FAULT,
};
use crate::store::Store;
use disk_model::Disk;
use outside_io::{Sink, Source};
use plain_model::Memory;
use script_lines::{refused_line, write_all, write_last};
use std::alloc::Global;

/// The line of the journal's stored ids.
fn stored_line<D: Disk>(alloc: Global, store: &Store<D>) -> Result<String, Memory>
    ensures { IfOk result (λ line. string_bytes line ≡ stored_line (end_of store.now.journal.history).state.stored) }
{
    let ids = store.stored()?;
    script_lines::stored_line(alloc, ids.items())
}

/// The line of a crash, after which the journal's ids are stored.
fn crash_line<D: Disk>(alloc: Global, store: &Store<D>) -> Result<String, Memory>
    ensures { IfOk result (λ line. string_bytes line ≡ crash_line (end_of store.now.journal.history).state.stored) }
{
    let ids = store.stored()?;
    script_lines::crash_line(alloc, ids.items())
}

/// Prints the stored ids, which ends a replay that came to the end of its script, and answers the status.
fn end<W: Sink, D: Disk>(alloc: Global, store: &Store<D>, out: &mut W) -> u8
    ensures statuses { (result ≡ 0) ⊎ ((result ≡ 5) ⊎ (result ≡ 8)) }
    ensures done { result ≡ 0 → Appends (W.written out.old) (W.written out.new)
        (stored_line (end_of store.now.journal.history).state.stored) }
    ensures write { result ≡ 5 → AppendsFront (W.written out.old) (W.written out.new)
        (stored_line (end_of store.now.journal.history).state.stored)
        × Rose (W.faults out.old) (W.faults out.new) }
    ensures memory { result ≡ 8 → EndsWith (W.written out.old) (W.written out.new)
        (W.faults out.old) (W.faults out.new) [] (codes "refused: memory\n") }
    ensures later { W.faults out.old ≤ W.faults out.new }
{
    let Ok(line) = stored_line(alloc, store) else {
        write_last(out, b"refused: memory\n");
        return OUT_OF_MEMORY;
    };
    match write_all(out, line.as_bytes()) {
        Ok(()) => DONE,
        Err(_) => WRITE_FAULT,
    }
}

/// Writes the last line of a replay that stopped, and answers the status. Where the sink had failed nothing is written.
pub(crate) fn end_stopped<W: Sink>(out: &mut W, stop: Stop) -> u8
    ensures status { result ≡ status_of stop }
    ensures last { EndsWith (W.written out.old) (W.written out.new)
        (W.faults out.old) (W.faults out.new) [] (last_line stop) }
    ensures later { W.faults out.old ≤ W.faults out.new }
{
    match stop {
        Stop::Line(number) => {
            write_last(out, refused_line(number).as_str().as_bytes());
            SCRIPT_REFUSED
        }
        Stop::Read => {
            write_last(out, b"refused: read\n");
            READ_FAULT
        }
        Stop::Write => WRITE_FAULT,
        Stop::Fault | Stop::UpkeepFault | Stop::Stopped => {
            write_last(out, b"refused: disk\n");
            DISK_FAULT
        }
        Stop::Memory => {
            write_last(out, b"refused: memory\n");
            OUT_OF_MEMORY
        }
        Stop::Full => {
            write_last(out, b"refused: trace\n");
            LIMIT
        }
        Stop::LogFull => {
            write_last(out, b"refused: log\n");
            LIMIT
        }
    }
}

/// Prints what is stored in a store that was opened after a loss of power, and hands it on.
fn tell_crash<W: Sink, D: Disk>(
    alloc: Global,
    store: Store<D>,
    out: &mut W,
) -> Result<Store<D>, (u8, Ended<D>)>
    ensures ok { IfOk result (λ s. (s ≡ store) × Appends (W.written out.old) (W.written out.new) (crash_line (end_of store.journal.history).state.stored)) }
    ensures memory { IfErr result (λ e. e.0 ≡ 8 → (e.1 ≡ Ended.Shut store.disk)
        × EndsWith (W.written out.old) (W.written out.new) (W.faults out.old) (W.faults out.new) [] (codes "refused: memory\n")) }
    ensures write { IfErr result (λ e. e.0 ≡ 5 → (e.1 ≡ Ended.Kept store)
        × AppendsFront (W.written out.old) (W.written out.new) (crash_line (end_of store.journal.history).state.stored)
        × Rose (W.faults out.old) (W.faults out.new)) }
    ensures statuses { IfErr result (λ e. (e.0 ≡ 5) ⊎ (e.0 ≡ 8)) }
    ensures later { W.faults out.old ≤ W.faults out.new }
{
    let Ok(line) = crash_line(alloc, &store) else {
        write_last(out, b"refused: memory\n");
        return Err((OUT_OF_MEMORY, Ended::Shut(store.into_disk())));
    };
    match write_all(out, line.as_bytes()) {
        Ok(()) => Ok(store),
        Err(_) => Err((WRITE_FAULT, Ended::Kept(store.into_logged()))),
    }
}

/// Loses power, with this pick of what is left of the disk, and opens the store again. Prints what is stored then.
fn crash<W: Sink, D: Disk>(
    alloc: Global,
    store: Store<D>,
    pick: u32,
    out: &mut W,
) -> Result<Store<D>, (u8, Ended<D>)>
    ensures ok { IfOk result (λ s. Reopens D.content D.may_leave D.faults store s
        × Appends (W.written out.old) (W.written out.new) (reopened_line s)) }
    ensures err { IfErr result (λ e. StopsCrash D.content D.may_leave D.faults store
        (W.written out.old) (W.written out.new) (W.faults out.old) (W.faults out.new) e.0 e.1) }
    ensures later { W.faults out.old ≤ W.faults out.new }
{
    // What a power loss may leave: this call hands the facts out.
    let _ = store.history();
    let mut disk = store.into_disk();
    if disk.lose_power(pick).is_err() {
        write_last(out, b"refused: disk\n");
        return Err((DISK_FAULT, Ended::Shut(disk)));
    }
    match Store::open(alloc, disk) {
        Ok(store) => {
            // What is known of the journal: this call hands the facts out.
            let _ = store.history();
            tell_crash(alloc, store, out)
        }
        Err((refusal, disk)) => Err((refuse(out, &refusal), Ended::Shut(disk))),
    }
}

/// Does the script of the source in this store, which is just opened, line by line, and answers the status. The journal of
/// the last opening is handed back, or the disk, where a store isn't opened again.
fn replay_in<R: Source, W: Sink, D: Disk>(
    alloc: Global,
    store: Store<D>,
    source: &mut R,
    out: &mut W,
) -> (u8, Ended<D>)
    requires opened { IsJustOpened store }
    ensures replayed { (disk : _) (faults : ℕ) → faults ≤ D.faults store.disk → ReadsAs D.content object_slots disk store.journal.opening
        → Replayed D.content D.may_leave source.old source.new disk
        (outside (R.left source.old) (R.faults source.old) (W.written out.old) (W.faults out.old) faults)
        (outside (R.left source.new) (R.faults source.new) (W.written out.new) (W.faults out.new) (D.faults (disk_in result.1)))
        result.0 result.1 }
    ensures later { GoesLater
        (outside (R.left source.old) (R.faults source.old) (W.written out.old) (W.faults out.old) (D.faults store.disk))
        (outside (R.left source.new) (R.faults source.new) (W.written out.new) (W.faults out.new) (D.faults (disk_in result.1))) }
{
    let mut script = Script::new();
    // What is known of the journal: this call hands the facts out, and so does each of the others.
    let _ = store.history();
    let mut store = store;
    'crashes: loop {
        let reached = replay(&mut store, &mut script, source, out);
        let _ = store.history();
        match reached {
            Ok(Reached::End) => return end_in(alloc, store, out),
            Ok(Reached::CrashLine { pick, last }) => {
                match crash(alloc, store, pick, out) {
                    Ok(opened) => store = opened,
                    Err(ended) => return ended,
                }
                if last {
                    return end_in(alloc, store, out);
                }
            }
            Err(stop) => {
                let status = end_stopped(out, stop);
                return (status, Ended::Kept(store.into_logged()));
            }
        }
    }
}

/// Prints the stored ids, which ends a replay that came to the end of its script, and hands the journal back with the
/// status.
fn end_in<W: Sink, D: Disk>(alloc: Global, store: Store<D>, out: &mut W) -> (u8, Ended<D>)
    ensures kept { result.1 ≡ Ended.Kept store }
    ensures statuses { (result.0 ≡ 0) ⊎ ((result.0 ≡ 5) ⊎ (result.0 ≡ 8)) }
    ensures done { result.0 ≡ 0 → Appends (W.written out.old) (W.written out.new)
        (stored_line (end_of store.journal.history).state.stored) }
    ensures write { result.0 ≡ 5 → AppendsFront (W.written out.old) (W.written out.new)
        (stored_line (end_of store.journal.history).state.stored)
        × Rose (W.faults out.old) (W.faults out.new) }
    ensures memory { result.0 ≡ 8 → EndsWith (W.written out.old) (W.written out.new)
        (W.faults out.old) (W.faults out.new) [] (codes "refused: memory\n") }
    ensures later { W.faults out.old ≤ W.faults out.new }
{
    let status = end(alloc, &store, out);
    (status, Ended::Kept(store.into_logged()))
}

/// Opens the store that the disk holds, does the script of the source in it, line by line, and answers the status. The
/// journal of the last opening is handed back, or the disk, where a store isn't opened.
pub(crate) fn replay_script<R: Source, W: Sink, D: Disk>(
    alloc: Global,
    script: &mut R,
    out: &mut W,
    disk: D,
) -> (u8, Ended<D>)
    ensures replayed { (script.new ≡ script.old) × Unopened D.content D.may_leave D.moment D.left_since disk
        (outside (R.left script.old) (R.faults script.old) (W.written out.old) (W.faults out.old) (D.faults disk))
        (outside (R.left script.new) (R.faults script.new) (W.written out.new) (W.faults out.new) (D.faults (disk_in result.1)))
        result.0 result.1
        ⊎ Replayed D.content D.may_leave script.old script.new disk
        (outside (R.left script.old) (R.faults script.old) (W.written out.old) (W.faults out.old) (D.faults disk))
        (outside (R.left script.new) (R.faults script.new) (W.written out.new) (W.faults out.new) (D.faults (disk_in result.1)))
        result.0 result.1 }
    ensures later { GoesLater
        (outside (R.left script.old) (R.faults script.old) (W.written out.old) (W.faults out.old) (D.faults disk))
        (outside (R.left script.new) (R.faults script.new) (W.written out.new) (W.faults out.new) (D.faults (disk_in result.1))) }
    ensures statuses { IsStatusOfReplay result.0 }
{
    match Store::open(alloc, disk) {
        Ok(store) => replay_in(alloc, store, script, out),
        Err((refusal, disk)) => (refuse(out, &refusal), Ended::Shut(disk)),
    }
}
