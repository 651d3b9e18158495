//! The lines of a history, written after all that it tells was done.
ghost use Rattle.std.specs.Prelude.{◌≡◌, ◌⊎◌, ◌≤◌, List, [], OnOk, IfErr, codes};
ghost use Rattle.std.specs.List.{AllByRecursion};
ghost use Rattle.std.specs.Io.KnownBytes.{Appends};
ghost use Rattle.plain_model.specs.Text.{line_of, text_of, stored_line};
ghost use Rattle.disk_model.specs.Causes.{Rose};
ghost use Rattle.logged_journal.specs.View.{history_of};
ghost use Rattle.script_lines.specs.Output.{AppendsFront, EndsWith};
ghost use Rattle.brahma_shell.specs.Points.{entries_in};
ghost use Rattle.brahma_shell.specs.Telling.{IsNoCrash, failed_text};

use crate::replay::{Stop, print};
use crate::status::{DONE, OUT_OF_MEMORY, WRITE_FAULT};
use core_store::Notes;
use disk_model::Disk;
use logged_journal::{FailedCall, LoggedJournal};
use outside_io::Sink;
use plain_model::{Call, Entry, Reply};
use script_lines::{
    SLOTS, call_line, delete_line, stored_line, turn_busy_line, write_all, write_last,
};
use std::alloc::Global;

/// Writes that the collector deleted the object, as one piece. It stands apart, so that a step of the collector that deletes
/// nothing clears no line.
#[inline(never)]
pub(crate) fn print_deletion<W: Sink>(out: &mut W, id: u32) -> Result<(), Stop>
    ensures ok { OnOk result (Appends (W.written out.old) (W.written out.new) (line_of (Entry.Delete id))) }
    ensures err { IfErr result (λ s. (s ≡ Stop.Write)
        × AppendsFront (W.written out.old) (W.written out.new) (line_of (Entry.Delete id))
        × Rose (W.faults out.old) (W.faults out.new)) }
    ensures later { W.faults out.old ≤ W.faults out.new }
{
    print(out, delete_line(id).as_str().as_bytes())
}

/// Writes the line of an entry, where it has one, as one piece. No journal enters that its store was opened again.
fn print_entry<W: Sink>(out: &mut W, entry: &Entry) -> Result<(), Stop>
    requires { IsNoCrash entry.now }
    ensures ok { OnOk result (Appends (W.written out.old) (W.written out.new) (line_of entry.now)) }
    ensures err { IfErr result (λ s. (s ≡ Stop.Write)
        × AppendsFront (W.written out.old) (W.written out.new) (line_of entry.now)
        × Rose (W.faults out.old) (W.faults out.new)) }
    ensures later { W.faults out.old ≤ W.faults out.new }
{
    match entry {
        Entry::Call { pass, call, reply } => {
            print(out, call_line(*pass, call, reply).as_str().as_bytes())
        }
        Entry::Delete { id } => print_deletion(out, *id),
        Entry::TurnBusy { pass } => print(out, turn_busy_line(*pass).as_str().as_bytes()),
        Entry::Hidden => Ok(()),
        Entry::Undo { .. } => Ok(()),
        Entry::Crash { .. } => Ok(()),
    }
}

/// Writes the lines of the notes' entries, each as one piece.
fn print_notes<W: Sink>(out: &mut W, notes: &Notes) -> Result<(), Stop>
    requires { AllByRecursion IsNoCrash (entries_in notes.now.list) }
    ensures ok { OnOk result (Appends (W.written out.old) (W.written out.new) (text_of (entries_in notes.now.list))) }
    ensures err { IfErr result (λ s. (s ≡ Stop.Write)
        × AppendsFront (W.written out.old) (W.written out.new) (text_of (entries_in notes.now.list))
        × Rose (W.faults out.old) (W.faults out.new)) }
    ensures later { W.faults out.old ≤ W.faults out.new }
{
    'notes: for note in notes.iter() {
        match print_entry(out, &note.entry) {
            Ok(()) => {}
            Err(stop) => return Err(stop),
        }
    }
    Ok(())
}

/// Writes the line of a commit that the disk failed, where it failed one.
fn print_failed<W: Sink>(out: &mut W, failed: Option<FailedCall>) -> Result<(), Stop>
    ensures ok { OnOk result (Appends (W.written out.old) (W.written out.new) (failed_text failed)) }
    ensures err { IfErr result (λ s. (s ≡ Stop.Write)
        × AppendsFront (W.written out.old) (W.written out.new) (failed_text failed)
        × Rose (W.faults out.old) (W.faults out.new)) }
    ensures later { W.faults out.old ≤ W.faults out.new }
{
    match failed {
        None => Ok(()),
        Some(failed) => match failed.commit {
            None => Ok(()),
            Some(client) => print(
                out,
                call_line(client, &Call::Commit, &Reply::DiskFault)
                    .as_str()
                    .as_bytes(),
            ),
        },
    }
}

/// Writes the lines of the journal's history, each as one piece. A commit that the disk failed has no note, and is the last
/// entry.
pub(crate) fn print_history<W: Sink, D: Disk>(
    out: &mut W,
    logged: &LoggedJournal<SLOTS, D>,
) -> Result<(), Stop>
    ensures ok { OnOk result (Appends (W.written out.old) (W.written out.new) (text_of (history_of logged.now).entries)) }
    ensures err { IfErr result (λ s. (s ≡ Stop.Write)
        × AppendsFront (W.written out.old) (W.written out.new) (text_of (history_of logged.now).entries)
        × Rose (W.faults out.old) (W.faults out.new)) }
    ensures later { W.faults out.old ≤ W.faults out.new }
{
    match print_notes(out, logged.journal().history()) {
        Ok(()) => print_failed(out, logged.failed()),
        Err(stop) => Err(stop),
    }
}

/// Writes the line of the stored ids, and answers the status.
pub(crate) fn print_stored<W: Sink>(alloc: Global, out: &mut W, ids: &[u32]) -> u8
    ensures statuses { (result ≡ 0) ⊎ ((result ≡ 5) ⊎ (result ≡ 8)) }
    ensures done { result ≡ 0 → Appends (W.written out.old) (W.written out.new) (stored_line ids.now) }
    ensures write { result ≡ 5 → AppendsFront (W.written out.old) (W.written out.new) (stored_line ids.now)
        × Rose (W.faults out.old) (W.faults out.new) }
    ensures memory { result ≡ 8 → EndsWith (W.written out.old) (W.written out.new)
        (W.faults out.old) (W.faults out.new) [] (codes "refused: memory\n") }
    ensures later { W.faults out.old ≤ W.faults out.new }
{
    let Ok(line) = stored_line(alloc, ids) else {
        write_last(out, b"refused: memory\n");
        return OUT_OF_MEMORY;
    };
    match write_all(out, line.as_bytes()) {
        Ok(()) => DONE,
        Err(_) => WRITE_FAULT,
    }
}
