//! The command `run`: clients on threads of their own, each with its part of one script.
ghost use Rattle.std.specs.Prelude.{◌≡◌, ◌⊎◌, ◌≤◌, ◌+◌, ◌*◌, ℕ, List, length, Option, IfOk, MatchOption, option_map};
ghost use Rattle.std.specs.List.{AllByRecursion};
ghost use Rattle.latch_table.specs.Holds.{IsAlone};
ghost use Rattle.script_lines.specs.declared.grammar.Line.{Line as ScriptLine};
ghost use Rattle.journal_opening.specs.Openings.{ReadsAs};
ghost use Rattle.client_pass.specs.Runs.{AreApart, MayRun};
ghost use Rattle.script_lines.specs.Numbers.{object_slots};
ghost use Rattle.brahma_shell.specs.ClientScripts.{AreScripts};
ghost use Rattle.brahma_shell.specs.Ended.{disk_in};
ghost use Rattle.brahma_shell.specs.Telling.{IsUnmarked, Tells, TellsStored, shown};
ghost use Rattle.brahma_shell.specs.Running.{TellsStop, OnlyPeeks, HasSeen, HasSeenLive, HasRun, HasAsked, HoldsNow};
ghost use Rattle.brahma_shell.specs.Ran.{Ran};
ghost use Rattle.brahma_shell.specs.Top.{GoesLater, IsJustOpened, IsStatusOfReplay, Unopened, outside};

use crate::client_lines::read_scripts;
use crate::ended::Ended;
use crate::opened::OpenedStore;
use crate::refusing::refuse;
use crate::replay::Stop;
use crate::replaying::end_stopped;
use crate::status::WRITE_FAULT;
use crate::telling::{print_history, print_stored};
use client_pass::{ClientScript, Gate, WorkEnd, run_all};
use disk_model::Disk;
use logged_journal::LoggedJournal;
use outside_io::{Sink, Source};
use plain_model::Memory;
use script_lines::SLOTS;
use shared_store::{Pass, Peek, Store as SharedStore};
use std::alloc::Global;
use std::sync::Wait;
use std::thread::Threads;

/// Why the run stopped that left this journal, as far as the journal tells.
fn stop_in<D: Disk>(logged: &LoggedJournal<SLOTS, D>) -> Option<Stop>
    ensures { MatchOption result (IsUnmarked logged.now) (TellsStop logged.now) }
{
    let marks = logged.marks();
    if marks.disk {
        return Some(Stop::Stopped);
    }
    if marks.trace {
        return Some(Stop::Full);
    }
    if marks.log {
        return Some(Stop::LogFull);
    }
    None
}

/// Whether an object of this id is stored. No other pass is out, so no word of a page is held.
fn is_stored<D: Disk>(store: &SharedStore<SLOTS, D>, main: &mut Pass<SLOTS, D>, id: u32) -> bool
    requires of { main.old.table ≡ store.now.table }
    requires alone { IsAlone main.old.view }
    requires id { (1 ≤ id) × (id ≤ 8 * store.now.pages) }
    ensures of { main.new.table ≡ store.now.table }
    ensures only { OnlyPeeks main.old.view main.new.view }
    ensures seen { HasSeen main.new.view id result }
{
    match store.peek(main, id) {
        Peek::Cell { cell, .. } => cell.live,
        Peek::Again { .. } => unreachable!(),
    }
}

/// The stored ids of a store with so many, ascending.
fn stored_ids<D: Disk>(
    alloc: Global,
    store: &SharedStore<SLOTS, D>,
    main: &mut Pass<SLOTS, D>,
    ids: u32,
) -> Result<Vec<u32>, Memory>
    requires of { main.old.table ≡ store.now.table }
    requires alone { IsAlone main.old.view }
    requires ids { ids ≡ 8 * store.now.pages }
    ensures of { main.new.table ≡ store.now.table }
    ensures only { OnlyPeeks main.old.view main.new.view }
    ensures seen { IfOk result (λ live. HasSeenLive main.new.view ids live.items) }
{
    let mut stored = Vec::new(alloc);
    'ids: for before in 0..ids {
        let id = before + 1;
        if is_stored(store, main, id) {
            stored.push(id)?;
        }
    }
    Ok(stored)
}

/// Runs the clients, and answers which ids are stored after them. There is no answer where they were stopped, or memory is out.
fn run_clients<D: Disk, G: Gate, T: Threads + Wait + Sync>(
    rt: &T,
    alloc: Global,
    store: &SharedStore<SLOTS, D>,
    main: &mut Pass<SLOTS, D>,
    scripts: &[ClientScript],
    gate: &G,
    ids: u32,
) -> Option<Vec<u32>>
    requires of { main.old.table ≡ store.now.table }
    requires alone { IsAlone main.old.view }
    requires room { main.old.view.station.last + length scripts.now ≤ 4294967295 }
    requires may { AllByRecursion (MayRun object_slots main.old.view.station) scripts.now }
    requires apart { AreApart scripts.now }
    requires ids { ids ≡ 8 * store.now.pages }
    ensures of { main.new.table ≡ store.now.table }
    ensures alone { IsAlone main.new.view }
    ensures run { HasRun D main.old.view main.new.view scripts.now ids (option_map (λ live. live.items) result) }
{
    match run_all(rt, store, main, scripts, gate) {
        WorkEnd::Finished => match stored_ids(alloc, store, main, ids) {
            Ok(stored) => Some(stored),
            Err(_) => None,
        },
        WorkEnd::Disk { .. } => None,
        WorkEnd::Limit { .. } => None,
        WorkEnd::Memory => None,
    }
}

/// Writes the line of the stored ids, or that memory is out where they are not known. Answers the status.
fn tell_stored<W: Sink>(alloc: Global, out: &mut W, stored: Option<Vec<u32>>) -> u8
    ensures { TellsStored (option_map (λ live. live.items) stored)
        (shown (W.written out.old) (W.faults out.old)) (shown (W.written out.new) (W.faults out.new)) result }
{
    match stored {
        Some(stored) => print_stored(alloc, out, stored.as_slice()),
        None => end_stopped(out, Stop::Memory),
    }
}

/// Writes the lines of the journal's history, and after them the stored ids or why the run stopped. Answers the status.
fn tell<W: Sink, D: Disk>(
    alloc: Global,
    out: &mut W,
    logged: &LoggedJournal<SLOTS, D>,
    stored: Option<Vec<u32>>,
) -> u8
    ensures { Tells logged.now (option_map (λ live. live.items) stored)
        (shown (W.written out.old) (W.faults out.old)) (shown (W.written out.new) (W.faults out.new)) result }
{
    match print_history(out, logged) {
        Ok(()) => match stop_in(logged) {
            Some(stop) => end_stopped(out, stop),
            None => tell_stored(alloc, out, stored),
        },
        Err(_) => WRITE_FAULT,
    }
}

/// Makes known what holds of the journal: each of these calls hands facts out.
pub(crate) fn know<D: Disk>(logged: &LoggedJournal<SLOTS, D>)
    ensures { HoldsNow D.may_leave D.faults logged.now }
{
    let journal = logged.journal();
    let _ = journal.history();
    let _ = journal.marks();
    let _ = journal.opening();
    let _ = logged.durable();
    let _ = logged.marks();
    let _ = logged.failed();
}

/// Runs the clients in a store that is just opened, and tells what happened. The journal is handed back with the status.
fn run_opened<W: Sink, D: Disk, G: Gate, T: Threads + Wait + Sync>(
    rt: &T,
    alloc: Global,
    store: OpenedStore<D>,
    scripts: &[ClientScript],
    out: &mut W,
    gate: &G,
) -> (u8, Ended<D>)
    requires opened { IsJustOpened store }
    requires counted { store.opened ≡ D.faults store.disk }
    requires scripts { AreScripts scripts.now }
    ensures ran { (disk : _) (left later : Option (List ℕ)) (reads now faults : ℕ) (asked : List ScriptLine)
        → HasAsked D.content disk left later asked store scripts.now → faults ≤ D.faults store.disk
        → (v : _) × (result.1 ≡ Ended.Kept v) × Ran D.content D.may_leave disk
        (outside left reads (W.written out.old) (W.faults out.old) faults)
        (outside later now (W.written out.new) (W.faults out.new) (D.faults (disk_in result.1)))
        result.0 v }
    ensures out_later { W.faults out.old ≤ W.faults out.new }
    ensures disk_later { D.faults store.disk ≤ D.faults (disk_in result.1) }
{
    // What is known of the journal that was opened: this call hands the facts out.
    let _ = store.history();
    let ids = store.ids();
    let (logged, frames) = store.into_parts();
    match SharedStore::new(alloc, logged, frames) {
        Ok((store, main)) => {
            let mut main = main;
            let stored = run_clients(rt, alloc, &store, &mut main, scripts, gate, ids);
            let (logged, _) = store.close(main);
            know(&logged);
            let status = tell(alloc, out, &logged, stored);
            (status, Ended::Kept(logged))
        }
        Err((logged, _)) => {
            let status = end_stopped(out, Stop::Memory);
            (status, Ended::Kept(logged))
        }
    }
}

/// Reads the whole script, and runs its clients in a store that is just opened.
fn run_in<R: Source, W: Sink, D: Disk, G: Gate, T: Threads + Wait + Sync>(
    rt: &T,
    alloc: Global,
    store: OpenedStore<D>,
    source: &mut R,
    out: &mut W,
    gate: &G,
) -> (u8, Ended<D>)
    requires opened { IsJustOpened store }
    requires counted { store.opened ≡ D.faults store.disk }
    ensures ran { (disk : _) (faults : ℕ) → faults ≤ D.faults store.disk → ReadsAs D.content object_slots disk store.journal.opening
        → (v : _) × (result.1 ≡ Ended.Kept v) × Ran D.content D.may_leave disk
        (outside (R.left source.old) (R.faults source.old) (W.written out.old) (W.faults out.old) faults)
        (outside (R.left source.new) (R.faults source.new) (W.written out.new) (W.faults out.new) (D.faults (disk_in result.1)))
        result.0 v }
    ensures later { GoesLater
        (outside (R.left source.old) (R.faults source.old) (W.written out.old) (W.faults out.old) (D.faults store.disk))
        (outside (R.left source.new) (R.faults source.new) (W.written out.new) (W.faults out.new) (D.faults (disk_in result.1))) }
{
    let _ = store.history();
    match read_scripts(alloc, store.ids(), source) {
        Ok(scripts) => run_opened(rt, alloc, store, scripts.scripts(), out, gate),
        Err(stop) => {
            let status = end_stopped(out, stop);
            (status, Ended::Kept(store.into_logged()))
        }
    }
}

/// Opens the store that the disk holds, reads the whole script of the source, and runs its clients, each on a thread of its own,
/// with the collector beside them. After them it collects until there is nothing to do, and tells what happened.
pub(crate) fn run_script<R: Source, W: Sink, D: Disk, G: Gate, T: Threads + Wait + Sync>(
    rt: &T,
    alloc: Global,
    script: &mut R,
    out: &mut W,
    disk: D,
    gate: &G,
) -> (u8, Ended<D>)
    ensures ran { (script.new ≡ script.old) × Unopened D.content D.may_leave D.moment D.left_since disk
        (outside (R.left script.old) (R.faults script.old) (W.written out.old) (W.faults out.old) (D.faults disk))
        (outside (R.left script.new) (R.faults script.new) (W.written out.new) (W.faults out.new) (D.faults (disk_in result.1)))
        result.0 result.1
        ⊎ ((v : _) × (result.1 ≡ Ended.Kept v) × Ran D.content D.may_leave disk
        (outside (R.left script.old) (R.faults script.old) (W.written out.old) (W.faults out.old) (D.faults disk))
        (outside (R.left script.new) (R.faults script.new) (W.written out.new) (W.faults out.new) (D.faults (disk_in result.1)))
        result.0 v) }
    ensures later { GoesLater
        (outside (R.left script.old) (R.faults script.old) (W.written out.old) (W.faults out.old) (D.faults disk))
        (outside (R.left script.new) (R.faults script.new) (W.written out.new) (W.faults out.new) (D.faults (disk_in result.1))) }
    ensures statuses { IsStatusOfReplay result.0 }
{
    match OpenedStore::open(alloc, disk) {
        Ok(store) => run_in(rt, alloc, store, script, out, gate),
        Err((refusal, disk)) => (refuse(out, &refusal), Ended::Shut(disk)),
    }
}
