//! The store of `replay` and `gen`: a journal with its log, whose one hold has all words between calls.

ghost use Rattle.std.specs.Prelude.{◌≡◌, ◌<◌, ◌≤◌, ◌*◌, ℕ, [], ◌∷◌, true, false, Bool, IfOk, IfErr, IsErrOf, IsSome, is_some, Some, None};
ghost use Rattle.plain_model.specs.Machine.{IsInRange, transaction_of};
ghost use Rattle.plain_model.specs.History.{IsLegal, end_of, is_stopped, left_to_undo, least_active};
ghost use Rattle.plain_laws.specs.Serializable.{IsSerializable};
ghost use Rattle.disk_model.specs.Told.{EachImage};
ghost use Rattle.store_model.specs.Sound.{IsSound};
ghost use Rattle.journal_opening.specs.Openings.{OpensAs, RefusesToOpen, OpensMeanwhile, HasFault};
ghost use Rattle.logged_journal.specs.View.{history_of};
ghost use Rattle.logged_journal.specs.Opens.{OpensAfter};
ghost use Rattle.core_store.specs.JournalView.{core_of, opening_of};
ghost use Rattle.core_store.specs.Leads.{AreLed};
ghost use Rattle.cell_model.specs.Graph.{graph_of};
ghost use Rattle.core_store.specs.Limited.{WasFull};
ghost use Rattle.core_store.specs.Safe.{IsDurable};
ghost use Rattle.core_store.specs.Steppings.{IsEntered, IsEvent, pops};
ghost use Rattle.logged_journal.specs.Calls.{IsOfJournal};
ghost use Rattle.logged_journal.specs.Records.{MayBeLeft, durable_notes};
ghost use Rattle.script_lines.specs.Grammar.{IsClient};
ghost use Rattle.brahma_shell.specs.Points.{point_of, entries_in, MayRest, IsExactAt};
ghost use Rattle.brahma_shell.specs.Growth.{GrowsBy, GrowsByEvent, GrowsByUpkeep, BecomesFull};
ghost use Rattle.brahma_shell.specs.Upkeep.{GivesUp, HasClean, HasTurned};
ghost use Rattle.brahma_shell.specs.Log.{StaysRunning, TellsFull, LosesCommit, WasLogFull};
ghost use Rattle.brahma_shell.specs.Rest.{StaysQuiet};
ghost use Rattle.script_lines.specs.Numbers.{object_slots};

use crate::opened::OpenedStore;
use cell_page::CELLS_OF_PAGE;
use core_store::{AbortStep, Collect, Notes};
use disk_model::Disk;
use logged_journal::{CollectRefusal, LoggedJournal, Stopped, Upkeep};
use plain_model::{Call, Entry, Ids, Memory, Reply};
use script_lines::SLOTS;
use shared_store::LoneStore;
use std::alloc::Global;
use std::marker::Model;
use store_opening::OpenRefusal;

/// The store of `replay` and `gen`. Its calls are told in the words of a script.
#[derive(Drop)]
pub(crate) struct Store<D: Disk> {
    lone: LoneStore<SLOTS, D>,
    /// A turn in a store of at most three pages takes memory from it.
    alloc: Global,
}

/// Contracts see the journal and its log.
impl<D: Disk> Model for Store<D> {
    ghost use Rattle.logged_journal.specs.View.{LoggedView};

    ghost Value = { LoggedView D };

    ghost view = { λ s. s.lone };
}

impl<D: Disk> Store<D> {
    /// The store that the disk holds. Where it isn't opened the disk is handed back.
    pub(crate) fn open(alloc: Global, disk: D) -> Result<Store<D>, (OpenRefusal, D)>
        ensures opened { IfOk result (λ s. OpensAs D.content D.faults object_slots disk (record { trace = 1048576; log = 1071644672 }) s) }
        ensures refused { IfErr result (λ e. RefusesToOpen D.content D.may_leave D.moment D.left_since object_slots disk e.0 e.1) }
        ensures meanwhile { IfErr result (λ e. OpensMeanwhile D.content D.may_leave D.moment D.left_since object_slots disk e.1) }
        ensures opens_meanwhile { IfOk result (λ s. OpensMeanwhile D.content D.may_leave D.moment D.left_since object_slots disk s.disk) }
        ensures fault { IfErr result (λ e. HasFault (D.faults disk) (D.faults e.1) e.0) }
    {
        let opened = OpenedStore::open(alloc, disk)?;
        // What is known of the journal that was opened: this call hands the facts out.
        let _ = opened.history();
        let (logged, frames) = opened.into_parts();
        match LoneStore::new(alloc, logged, frames) {
            Ok(lone) => Ok(Store { lone, alloc }),
            Err((logged, _)) => Err((OpenRefusal::Memory, logged.into_disk())),
        }
    }

    /// What happened so far, and what each of its events logged.
    pub(crate) fn history(&self) -> &Notes
        ensures notes { result.now.list ≡ self.now.journal.notes }
        ensures legal { IsLegal self.now.journal.history }
        ensures running { is_stopped (end_of self.now.journal.history) ≡ false }
        ensures serializable { IsSerializable self.now.journal.history }
        ensures opening { graph_of self.now.journal.opening ≡ self.now.journal.history.opening }
        ensures entries { entries_in self.now.journal.notes ≡ self.now.journal.history.entries }
        ensures sound { IsSound (core_of self.now.journal) }
        ensures led { AreLed object_slots (opening_of self.now.journal) self.now.journal.notes (core_of self.now.journal) }
        ensures full { self.now.journal.marks.trace ≡ true → WasFull self.now.journal }
        ensures log_full { self.now.log_full ≡ true → WasLogFull self.now }
        ensures lasting { IsDurable self.now.journal (durable_notes self.now) }
        ensures images { EachImage D.may_leave self.now.disk (MayBeLeft self.now) }
        ensures opens { EachImage D.may_leave self.now.disk (OpensAfter object_slots (history_of self.now)) }
    {
        let logged = self.lone.logged();
        let journal = logged.journal();
        // What the marks mean, what a power loss may leave, and what the opening's cells are: these calls hand the facts out.
        let _ = logged.marks();
        let _ = logged.durable();
        let _ = journal.marks();
        let _ = journal.opening();
        journal.history()
    }

    /// Does the call.
    pub(crate) fn call(&mut self, client: u8, call: &Call) -> Reply
        requires client { IsClient client }
        requires in_range { IsInRange object_slots call.now }
        requires no_abort { call.now ≡ Call.Abort → transaction_of (end_of self.old.journal.history).state client ≡ None }
        requires running { self.old.failed ≡ None }
        ensures memory { result ≡ Reply.Memory → GrowsBy self.old.journal self.new.journal [] }
        ensures full { result ≡ Reply.TraceFull → BecomesFull self.old.journal self.new.journal }
        ensures entry { IsOfJournal result → IsEntered result → GrowsBy self.old.journal self.new.journal (Entry.Call client call.now result ∷ []) }
        ensures goes_on { IsOfJournal result → StaysRunning D.faults self.old self.new }
        ensures log_full { result ≡ Reply.LogFull → GrowsBy self.old.journal self.new.journal [] × TellsFull D.faults self.old self.new }
        ensures fault { result ≡ Reply.DiskFault → (call.now ≡ Call.Commit) × (self.new.journal ≡ self.old.journal) × LosesCommit D.faults client self.old self.new }
        ensures stopped { (faults : ℕ) → result ≡ Reply.Stopped faults → ⊥ }
    {
        self.lone.call(client, call)
    }

    /// Does one step of the client's abort.
    pub(crate) fn abort_step(&mut self, client: u8) -> Result<AbortStep, Stopped>
        requires active { IsSome (transaction_of (end_of self.old.journal.history).state client) }
        requires running { self.old.failed ≡ None }
        ensures undone { IfOk result (λ step. step ≡ AbortStep.Undone → (0 < left_to_undo (end_of self.old.journal.history) client) × GrowsBy self.old.journal self.new.journal (Entry.Undo client ∷ [])) }
        ensures ended { IfOk result (λ step. step ≡ AbortStep.Ended → (left_to_undo (end_of self.old.journal.history) client ≡ 0) × GrowsBy self.old.journal self.new.journal (Entry.Call client Call.Abort Reply.Done ∷ [])) }
        ensures goes_on { StaysRunning D.faults self.old self.new }
        ensures stopped { IfErr result (λ _. ⊥) }
    {
        self.lone.abort_step(client)
    }

    /// Makes one step of the collector.
    #[inline(always)]
    pub(crate) fn collect_step(&mut self) -> Result<Collect, CollectRefusal>
        requires running { self.old.failed ≡ None }
        ensures idle { IfOk result (λ step. step ≡ Collect.Idle → GrowsBy self.old.journal self.new.journal [] × MayRest (point_of self.old.journal)) }
        ensures full { IfOk result (λ step. step ≡ Collect.TraceFull → BecomesFull self.old.journal self.new.journal) }
        ensures memory { IfOk result (λ step. step ≡ Collect.Memory → GrowsBy self.old.journal self.new.journal []) }
        ensures did { IfOk result (λ step. (popped : Bool) (left : ℕ) → step ≡ Collect.Did popped left → GrowsByEvent self.old.journal self.new.journal popped left Entry.Hidden) }
        ensures deleted { IfOk result (λ step. (id left : ℕ) → step ≡ Collect.Deleted id left → GrowsByEvent self.old.journal self.new.journal false left (Entry.Delete id)) }
        ensures exact { IfOk result (λ step. step ≡ Collect.Idle → (point_of self.old.journal).moment.state.active ≡ [] → IsExactAt (point_of self.old.journal)) }
        ensures quiet { IfOk result (λ step. IsEvent step → (point_of self.old.journal).moment.state.active ≡ [] → StaysQuiet self.old.journal self.new.journal (pops step)) }
        ensures goes_on { IfOk result (λ _. StaysRunning D.faults self.old self.new) }
        ensures log_full { IsErrOf result CollectRefusal.LogFull → GrowsBy self.old.journal self.new.journal [] × TellsFull D.faults self.old self.new }
        ensures stopped { (faults : ℕ) → IsErrOf result (CollectRefusal.Stopped faults) → ⊥ }
    {
        // The journal is sound, and what its notes say: these calls hand the facts out.
        let _ = self.lone.logged().journal().history();
        let step = self.lone.collect_step();
        let _ = self.lone.logged().journal().history();
        step
    }

    /// Writes the page in place.
    pub(crate) fn clean(&mut self, page: u16) -> Upkeep
        requires page { 8 * page < self.old.journal.history.ids }
        requires running { self.old.failed ≡ None }
        ensures done { result ≡ Upkeep.Done → GrowsByUpkeep self.old.journal self.new.journal Entry.Hidden × StaysRunning D.faults self.old self.new }
        ensures clean { result ≡ Upkeep.Done → HasClean D.may_leave page self.old self.new }
        ensures gives_up { GivesUp D.faults self.old self.new result }
        ensures never_busy { (pass : ℕ) → result ≡ Upkeep.Busy pass → ⊥ }
    {
        self.lone.clean(page)
    }

    /// Makes a checkpoint, where no client has a transaction.
    pub(crate) fn turn(&mut self) -> Upkeep
        requires running { self.old.failed ≡ None }
        ensures done { result ≡ Upkeep.Done → (least_active (end_of self.old.journal.history).state ≡ None) × GrowsByUpkeep self.old.journal self.new.journal Entry.Hidden × StaysRunning D.faults self.old self.new }
        ensures turned { result ≡ Upkeep.Done → HasTurned D.may_leave self.old self.new }
        ensures busy { (pass : ℕ) → result ≡ Upkeep.Busy pass → (least_active (end_of self.old.journal.history).state ≡ Some pass) × GrowsByUpkeep self.old.journal self.new.journal (Entry.TurnBusy pass) × StaysRunning D.faults self.old self.new }
        ensures gives_up { GivesUp D.faults self.old self.new result }
    {
        self.lone.turn(self.alloc)
    }

    /// How many ids the store has.
    pub(crate) fn ids(&self) -> u32
        ensures value { result ≡ self.now.journal.history.ids }
        ensures some { 1 ≤ result }
    {
        CELLS_OF_PAGE as u32 * u32::from(self.lone.pages())
    }

    /// Whether the client has a transaction.
    pub(crate) fn active(&self, client: u8) -> bool
        ensures value { result ≡ is_some (transaction_of (end_of self.now.journal.history).state client) }
        ensures entries { entries_in self.now.journal.notes ≡ self.now.journal.history.entries }
    {
        self.lone.logged().journal().active(client)
    }

    /// The stored ids, ascending.
    pub(crate) fn stored(&self) -> Result<Ids, Memory>
        ensures { IfOk result (λ ids. ids ≡ (end_of self.now.journal.history).state.stored) }
    {
        self.lone.logged().journal().stored()
    }

    /// The disk alone.
    pub(crate) fn into_disk(self) -> D
        ensures { result ≡ self.disk }
    {
        self.lone.into_logged().into_disk()
    }

    /// The journal with its log.
    pub(crate) fn into_logged(self) -> LoggedJournal<SLOTS, D>
        ensures { result ≡ self }
    {
        self.lone.into_logged()
    }
}
