//! A store that was just opened: it is audited, or handed to clients on threads or to a replay.

ghost use Rattle.std.specs.Prelude.{◌≡◌, ◌⊎◌, ◌<◌, ◌≤◌, ◌*◌, ℕ, List, [], None, true, false, IfOk, IfErr, IsErrOf, OnOk};
ghost use Rattle.std.specs.Io.KnownBytes.{Appends};
ghost use Rattle.plain_model.specs.History.{IsLegal, end_of, is_stopped, least_active};
ghost use Rattle.plain_laws.specs.Serializable.{IsSerializable};
ghost use Rattle.std.specs.List.{range_with_len};
ghost use Rattle.disk_model.specs.Told.{EachImage};
ghost use Rattle.disk_model.specs.Time.{LeavesOnlyImages};
ghost use Rattle.store_model.specs.Sound.{IsSound};
ghost use Rattle.journal_opening.specs.Openings.{OpensAs, RefusesToOpen, OpensMeanwhile, HasFault};
ghost use Rattle.auditor.specs.Recount.{live_in, zero_in};
ghost use Rattle.par_audit.specs.Garbage.{IsGarbage};
ghost use Rattle.framed_journal.specs.Holding.{AreFramesOf};
ghost use Rattle.logged_journal.specs.View.{history_of, OnlyTakesRoom};
ghost use Rattle.logged_journal.specs.Upkeep.{FailsUpkeep, IsPastLogToTurn};
ghost use Rattle.logged_journal.specs.Opens.{OpensAfter};
ghost use Rattle.core_store.specs.JournalView.{cells_of, core_of, opening_of};
ghost use Rattle.core_store.specs.Leads.{AreLed};
ghost use Rattle.cell_model.specs.Graph.{graph_of};
ghost use Rattle.core_store.specs.Limited.{WasFull, is_past_limit};
ghost use Rattle.core_store.specs.Safe.{IsDurable};
ghost use Rattle.logged_journal.specs.Records.{MayBeLeft, durable_notes};
ghost use Rattle.brahma_shell.specs.Points.{entries_in};
ghost use Rattle.brahma_shell.specs.Log.{WasLogFull};
ghost use Rattle.script_lines.specs.Numbers.{object_slots};
ghost use Rattle.script_lines.specs.Output.{AppendsFront};
ghost use Rattle.stream_writing.specs.declared.backup_refusal.BackupRefusal.TheVariants.{Disk, LogFull, Memory as Starved, Write};
ghost use Rattle.stream_writing.specs.Backups.{IsBaseOf, HasTurned, HasSinkCause};

use auditor::{Report, audit_journal};
use cell_page::CELLS_OF_PAGE;
use core_store::{Frame, Limits, Notes};
use disk_model::Disk;
use framed_journal::FramedJournal;
use journal_opening::open;
use logged_journal::LoggedJournal;
use outside_io::Sink;
use par_audit::{Wide, par_audit_journal};
use plain_model::Memory;
use script_lines::SLOTS;
use std::alloc::Global;
use std::marker::Model;
use std::thread::Threads;
use store_opening::OpenRefusal;
use stream_writing::{BackupRefusal, back_up};

/// A store that was opened: a journal with its log and all its frames, on one thread.
#[derive(Drop)]
pub(crate) struct OpenedStore<D: Disk> {
    framed: FramedJournal<SLOTS, D>,
}

/// Contracts see the journal and its log.
impl<D: Disk> Model for OpenedStore<D> {
    ghost use Rattle.logged_journal.specs.View.{LoggedView};

    ghost Value = { LoggedView D };

    ghost view = { λ s. s.framed };
}

impl<D: Disk> OpenedStore<D> {
    /// The store that the disk holds. Where it isn't opened the disk is handed back.
    pub(crate) fn open(alloc: Global, disk: D) -> Result<OpenedStore<D>, (OpenRefusal, D)>
        ensures opened { IfOk result (λ s. OpensAs D.content D.faults object_slots disk (record { trace = 1048576; log = 1071644672 }) s) }
        ensures refused { IfErr result (λ e. RefusesToOpen D.content D.may_leave D.moment D.left_since object_slots disk e.0 e.1) }
        ensures meanwhile { IfErr result (λ e. OpensMeanwhile D.content D.may_leave D.moment D.left_since object_slots disk e.1) }
        ensures opens_meanwhile { IfOk result (λ s. OpensMeanwhile D.content D.may_leave D.moment D.left_since object_slots disk s.disk) }
        ensures fault { IfErr result (λ e. HasFault (D.faults disk) (D.faults e.1) e.0) }
    {
        match open(alloc, disk, Limits::GREATEST) {
            Ok(framed) => Ok(OpenedStore { framed }),
            Err(refused) => Err(refused),
        }
    }

    /// What happened so far, and what each of its events logged.
    pub(crate) fn history(&self) -> &Notes
        ensures notes { result.now.list ≡ self.now.journal.notes }
        ensures legal { IsLegal self.now.journal.history }
        ensures running { is_stopped (end_of self.now.journal.history) ≡ false }
        ensures serializable { IsSerializable self.now.journal.history }
        ensures opening { graph_of self.now.journal.opening ≡ self.now.journal.history.opening }
        ensures entries { entries_in self.now.journal.notes ≡ self.now.journal.history.entries }
        ensures sound { IsSound (core_of self.now.journal) }
        ensures led { AreLed object_slots (opening_of self.now.journal) self.now.journal.notes (core_of self.now.journal) }
        ensures full { self.now.journal.marks.trace ≡ true → WasFull self.now.journal }
        ensures log_full { self.now.log_full ≡ true → WasLogFull self.now }
        ensures lasting { IsDurable self.now.journal (durable_notes self.now) }
        ensures images { EachImage D.may_leave self.now.disk (MayBeLeft self.now) }
        ensures opens { EachImage D.may_leave self.now.disk (OpensAfter object_slots (history_of self.now)) }
    {
        let logged = self.framed.logged();
        let journal = logged.journal();
        // What the marks mean, what a power loss may leave, and what the opening's cells are: these calls hand the facts out.
        let _ = logged.marks();
        let _ = logged.durable();
        let _ = journal.marks();
        let _ = journal.opening();
        journal.history()
    }

    /// Counts all pointers again, and tells what it found: no difference.
    pub(crate) fn audit(&self, alloc: Global) -> Result<Report, Memory>
        ensures live { IfOk result (λ r. r.live ≡ live_in (cells_of self.now.journal)) }
        ensures zero { IfOk result (λ r. r.zero ≡ zero_in (cells_of self.now.journal) (range_with_len 1 self.now.journal.history.ids)) }
        ensures differences { IfOk result (λ r. r.differences ≡ []) }
    {
        audit_journal(alloc, &self.framed)
    }

    /// Does so by so many pieces on several threads, and counts what is garbage.
    pub(crate) fn par_audit(
        &self,
        rt: &(impl Threads + Sync),
        alloc: Global,
        pieces: u16,
    ) -> Result<Wide, Memory>
        requires some { 0 < pieces }
        requires few { pieces ≤ 1024 }
        ensures live { IfOk result (λ w. w.report.live ≡ live_in (cells_of self.now.journal)) }
        ensures zero { IfOk result (λ w. w.report.zero ≡ zero_in (cells_of self.now.journal) (range_with_len 1 self.now.journal.history.ids)) }
        ensures differences { IfOk result (λ w. w.report.differences ≡ []) }
        ensures garbage { IfOk result (λ w. IsGarbage (cells_of self.now.journal) (range_with_len 1 self.now.journal.history.ids) w.garbage) }
    {
        par_audit_journal(rt, alloc, &self.framed, pieces)
    }

    /// Makes a checkpoint, and writes the base of a stream.
    pub(crate) fn back_up<W: Sink>(&mut self, out: &mut W) -> Result<(), BackupRefusal>
        requires running { self.old.failed ≡ None }
        requires idle { least_active (end_of self.old.journal.history).state ≡ None }
        requires room { is_past_limit self.old.journal 1 ≡ false }
        ensures base { OnOk result ((bytes : List ℕ) × IsBaseOf object_slots self.new.journal.history.ids (cells_of self.new.journal) bytes
            × Appends (W.written out.old) (W.written out.new) bytes) }
        ensures write { IsErrOf result Write → (bytes : List ℕ) × IsBaseOf object_slots self.new.journal.history.ids (cells_of self.new.journal) bytes
            × AppendsFront (W.written out.old) (W.written out.new) bytes }
        ensures turned { OnOk result (HasTurned object_slots D.may_leave self.old self.new) }
        ensures turned_too { IsErrOf result Write → HasTurned object_slots D.may_leave self.old self.new }
        ensures failed { IsErrOf result Disk → FailsUpkeep D.faults self.old self.new }
        ensures full { IsErrOf result LogFull → IsPastLogToTurn object_slots self.old × OnlyTakesRoom (record self.old { log_full = true }) self.new }
        ensures starved { IsErrOf result Starved → OnlyTakesRoom self.old self.new }
        ensures unwritten { IfErr result (λ e. (e ≡ Write) ⊎ (out.new ≡ out.old)) }
        ensures sink { HasSinkCause (W.faults out.old) (W.faults out.new) result }
        ensures disk_later { D.faults self.old.disk ≤ D.faults self.new.disk }
        ensures opens { LeavesOnlyImages D.moment D.left_since self.old.disk self.new.disk (OpensAfter object_slots (history_of self.old)) }
    {
        back_up(&mut self.framed, out)
    }

    /// How many pages the store has.
    pub(crate) fn pages(&self) -> usize
        ensures { 8 * result ≡ self.now.journal.history.ids }
    {
        self.framed.frames().len()
    }

    /// How many ids the store has.
    pub(crate) fn ids(&self) -> u32
        ensures value { result ≡ self.now.journal.history.ids }
        ensures some { 1 ≤ result }
    {
        CELLS_OF_PAGE as u32 * self.framed.frames().len() as u32
    }

    /// The journal with its log.
    pub(crate) fn into_logged(self) -> LoggedJournal<SLOTS, D>
        ensures { result ≡ self }
    {
        self.framed.into_logged()
    }

    /// The journal with its log, and the frames in order of their pages.
    pub(crate) fn into_parts(self) -> (LoggedJournal<SLOTS, D>, Vec<Frame<SLOTS>>)
        ensures logged { result.0 ≡ self }
        ensures frames { AreFramesOf self.journal result.1.items }
    {
        self.framed.into_parts()
    }
}
