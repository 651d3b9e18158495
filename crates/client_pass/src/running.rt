//! A run of several clients.
ghost use Rattle.std.specs.Prelude.{◌≡◌, ℕ, ◌+◌, ◌≤◌, length, true, false};
ghost use Rattle.std.specs.List.{AllByRecursion};
ghost use Rattle.std.specs.Thread.{IsSync};
ghost use Rattle.latch_table.specs.Holds.{IsAlone};
ghost use Rattle.shared_store.specs.Passes.{IsClient};
ghost use Rattle.client_pass.specs.Scripts.{AreInRange};
ghost use Rattle.client_pass.specs.Workings.{DoesTransactions, EndsWork, refused_by_work};
ghost use Rattle.client_pass.specs.Runs.{AreApart, AreCounts, CountsRefusals, EndsRun, HaveGrown, IsCollected, MayRun, RoseBy, RunsScripts, TellsWorst};

use crate::collecting::{collect_beside, collect_rest};
use crate::ends::{RunEnd, WorkEnd};
use crate::gate::Gate;
use crate::script::{ClientScript, Txns};
use crate::working::work;
use disk_model::Disk;
use shared_store::{Pass, Store};
use std::sync::Wait;
use std::sync::atomic::{AtomicU64, Ordering};
use std::thread::{Threads, join_mut};

/// The collector's turns beside the clients for each call of a script.
const TURNS_PER_CALL: u64 = 64;

/// The collector's turns beside the clients that come besides.
const TURNS_BESIDES: u64 = 1024;

/// How many calls the transactions have.
fn calls_in(txns: &Txns) -> u64 {
    let mut calls = 0u64;
    'transactions: for txn in txns.items() {
        calls = calls.saturating_add(txn.items().len() as u64);
    }
    calls
}

/// How many turns the collector has beside these clients.
fn turns_for(scripts: &[ClientScript]) -> u64 {
    let mut calls = 0u64;
    'scripts: for script in scripts {
        calls = calls.saturating_add(calls_in(&script.txns));
    }
    calls
        .saturating_mul(TURNS_PER_CALL)
        .saturating_add(TURNS_BESIDES)
}

/// The work of a client, of which the collector is told when it ended.
fn work_beside<const SLOTS: usize, D: Disk, G: Gate, R: Wait>(
    rt: &R,
    store: &Store<SLOTS, D>,
    pass: &mut Pass<SLOTS, D>,
    script: &ClientScript,
    gate: &G,
    left: &AtomicU64,
) -> WorkEnd
    requires of { pass.old.table ≡ store.now.table }
    requires client { IsClient script.now.pass × (pass.old.view.station.name ≡ script.now.pass) }
    requires none { pass.old.view.knowledge.truth ≡ false }
    requires in_range { AreInRange SLOTS script.now.txns }
    ensures of { pass.new.table ≡ store.now.table }
    ensures does { DoesTransactions pass.old.view pass.new.view script.now.txns result }
    ensures end { (result ≡ WorkEnd.Finished → ⊥) → EndsWork D SLOTS D.content D.may_leave D.faults D.moment D.left_since pass.new.view result }
    ensures refused { pass.new.refused ≡ refused_by_work result pass.old.refused }
{
    let end = work(rt, store, pass, script, gate);
    left.fetch_sub(1, Ordering::SeqCst);
    end
}

/// How often the pass was refused is told by numbers of 64 bits.
fn know_counts<const SLOTS: usize, D: Disk>(pass: &Pass<SLOTS, D>)
    ensures { AreCounts pass.now.refused }
{
    let _ = pass.refused();
}

/// Does a client's work in this thread, and runs the others with the collector in a new one. Where none can be made they are run
/// after it. It answers how the others' work ended, and how this client's.
#[cycle(clients)]
fn run_first<'s, const SLOTS: usize, D: Disk, G: Gate, R: Threads + Wait + Sync>(
    rt: &'s R,
    store: &'s Store<SLOTS, D>,
    main: &mut Pass<SLOTS, D>,
    pass: &mut Pass<SLOTS, D>,
    script: &ClientScript,
    others: &[ClientScript],
    gate: &G,
    turns: u64,
    left: &AtomicU64,
) -> (WorkEnd, WorkEnd)
    requires of { (main.old.table ≡ store.now.table) × (pass.old.table ≡ store.now.table) }
    requires main { main.old.view.station.main ≡ true }
    requires room { main.old.view.station.last + length others.now ≤ 4294967295 }
    requires may { AllByRecursion (MayRun SLOTS main.old.view.station) others.now }
    requires apart { AreApart others.now }
    requires client { IsClient script.now.pass × (pass.old.view.station.name ≡ script.now.pass) }
    requires none { pass.old.view.knowledge.truth ≡ false }
    requires in_range { AreInRange SLOTS script.now.txns }
    ensures of { (main.new.table ≡ store.now.table) × (pass.new.table ≡ store.now.table) }
    ensures runs { RunsScripts main.old.view main.new.view others.now result.0 }
    ensures does { DoesTransactions pass.old.view pass.new.view script.now.txns result.1 }
    ensures ends { ((result.0 ≡ WorkEnd.Finished → ⊥) → EndsRun D SLOTS D.content D.may_leave D.faults D.moment D.left_since main.old.view result.0) × ((result.1 ≡ WorkEnd.Finished → ⊥) → EndsWork D SLOTS D.content D.may_leave D.faults D.moment D.left_since pass.new.view result.1) }
    ensures refused { CountsRefusals result.0 main.old.refused main.new.refused × (pass.new.refused ≡ refused_by_work result.1 pass.old.refused) }
{
    join_mut(
        rt,
        &mut || -> WorkEnd
            requires sync { IsSync R.row }
            requires of { main.now.table ≡ store.now.table }
            requires main { main.now.view.station.main ≡ true }
            requires room { main.now.view.station.last + length others.now ≤ 4294967295 }
            requires may { AllByRecursion (MayRun SLOTS main.now.view.station) others.now }
            requires apart { AreApart others.now }
            ensures of { main.exit.now.table ≡ store.entry.now.table }
            ensures runs { RunsScripts main.entry.now.view main.exit.now.view others.entry.now result }
            ensures end { (result ≡ WorkEnd.Finished → ⊥) → EndsRun D SLOTS D.content D.may_leave D.faults D.moment D.left_since main.entry.now.view result }
            ensures refused { CountsRefusals result main.entry.now.refused main.exit.now.refused }
        { run_beside(rt, store, main, others, gate, turns, left) },
        &mut || -> WorkEnd
            requires of { pass.now.table ≡ store.now.table }
            requires client { IsClient script.now.pass × (pass.now.view.station.name ≡ script.now.pass) }
            requires none { pass.now.view.knowledge.truth ≡ false }
            requires in_range { AreInRange SLOTS script.now.txns }
            ensures of { pass.exit.now.table ≡ store.entry.now.table }
            ensures does { DoesTransactions pass.entry.now.view pass.exit.now.view script.entry.now.txns result }
            ensures end { (result ≡ WorkEnd.Finished → ⊥) → EndsWork D SLOTS D.content D.may_leave D.faults D.moment D.left_since pass.exit.now.view result }
            ensures refused { pass.exit.now.refused ≡ refused_by_work result pass.entry.now.refused }
        { work_beside(rt, store, pass, script, gate, left) },
    )
}

/// Runs the clients of these scripts, each in a thread of its own, and the collector in one more.
#[cycle(clients)]
fn run_beside<'s, const SLOTS: usize, D: Disk, G: Gate, R: Threads + Wait + Sync>(
    rt: &'s R,
    store: &'s Store<SLOTS, D>,
    main: &mut Pass<SLOTS, D>,
    scripts: &[ClientScript],
    gate: &G,
    turns: u64,
    left: &AtomicU64,
) -> WorkEnd
    requires of { main.old.table ≡ store.now.table }
    requires main { main.old.view.station.main ≡ true }
    requires room { main.old.view.station.last + length scripts.now ≤ 4294967295 }
    requires may { AllByRecursion (MayRun SLOTS main.old.view.station) scripts.now }
    requires apart { AreApart scripts.now }
    ensures of { main.new.table ≡ store.now.table }
    ensures runs { RunsScripts main.old.view main.new.view scripts.now result }
    ensures end { (result ≡ WorkEnd.Finished → ⊥) → EndsRun D SLOTS D.content D.may_leave D.faults D.moment D.left_since main.old.view result }
    ensures refused { CountsRefusals result main.old.refused main.new.refused }
{
    know_counts(main);
    let Some((script, others)) = scripts.split_first() else {
        return collect_beside(store, main, turns, left);
    };
    let mut pass = store.share(main, script.pass);
    let (rest, own) = run_first(
        rt, store, main, &mut pass, script, others, gate, turns, left,
    );
    store.join(main, pass);
    own.with(rest)
}

/// Runs a worker for each script, each in a thread of its own, with the collector beside them. When all have ended the collector
/// goes on until it has nothing to do.
pub fn run_all<const SLOTS: usize, D: Disk, G: Gate, R: Threads + Wait + Sync>(
    rt: &R,
    store: &Store<SLOTS, D>,
    main: &mut Pass<SLOTS, D>,
    scripts: &[ClientScript],
    gate: &G,
) -> RunEnd
    requires of { main.old.table ≡ store.now.table }
    requires alone { IsAlone main.old.view }
    requires room { main.old.view.station.last + length scripts.now ≤ 4294967295 }
    requires may { AllByRecursion (MayRun SLOTS main.old.view.station) scripts.now }
    requires apart { AreApart scripts.now }
    ensures of { main.new.table ≡ store.now.table }
    ensures alone { IsAlone main.new.view }
    ensures runs { RunsScripts main.old.view main.new.view scripts.now result }
    ensures idle { result ≡ WorkEnd.Finished → IsCollected D SLOTS main.new.view }
    ensures end { (result ≡ WorkEnd.Finished → ⊥) → EndsRun D SLOTS D.content D.may_leave D.faults D.moment D.left_since main.old.view result }
    ensures grown { HaveGrown main.old.refused main.new.refused }
    ensures refused { RoseBy result main.old.refused main.new.refused }
    ensures worst { TellsWorst result main.old.refused main.new.refused }
{
    let left = AtomicU64::new(scripts.len() as u64);
    match run_beside(rt, store, main, scripts, gate, turns_for(scripts), &left) {
        WorkEnd::Finished => {
            know_counts(main);
            collect_rest(store, main)
        }
        end => end,
    }
}
