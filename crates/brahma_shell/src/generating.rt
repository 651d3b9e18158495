//! The command `gen`.
ghost use Rattle.std.specs.Prelude.{◌≡◌, ◌⊎◌, ◌≤◌, ℕ, [], length, None, OnOk, IfErr, codes};
ghost use Rattle.std.specs.Io.KnownBytes.{Appends};
ghost use Rattle.plain_model.specs.Machine.{IsInRange};
ghost use Rattle.plain_model.specs.History.{end_of};
ghost use Rattle.disk_model.specs.Causes.{Rose};
ghost use Rattle.journal_opening.specs.Openings.{ReadsAs};
ghost use Rattle.script_lines.specs.Output.{AppendsFront, EndsWith};
ghost use Rattle.call_generator.specs.Generator.{generator, drawn_slots};
ghost use Rattle.brahma_shell.specs.Ended.{disk_in};
ghost use Rattle.brahma_shell.specs.Log.{StaysRunning};
ghost use Rattle.brahma_shell.specs.Replay.{Performs};
ghost use Rattle.brahma_shell.specs.Generated.{line_of, lines_in, DoesLines, StopsLines, DoesAll, StopsAll, generated_text};
ghost use Rattle.brahma_shell.specs.Top.{IsJustOpened, Unopened, Generated, outside};
ghost use Rattle.script_lines.specs.Numbers.{object_slots};

use crate::ended::Ended;
use crate::gc;
use crate::nowhere::Nowhere;
use crate::refusing::refuse;
use crate::replay::{Stop, obey};
use crate::replaying::end_stopped;
use crate::status::{DONE, OUT_OF_MEMORY, WRITE_FAULT};
use crate::store::Store;
use crate::tally::tally_of;
use call_generator::{Asked, Generator, Turn};
use disk_model::Disk;
use outside_io::Sink;
use plain_model::Call;
use script_lines::{Line, generated_line, write_all, write_last};
use std::alloc::Global;

/// The line that asks the call of a turn.
fn line_of(turn: &Turn) -> Line
    ensures { result ≡ line_of turn.now.client turn.now.call }
{
    match turn.call {
        Call::Abort => Line::Abort {
            client: turn.client,
        },
        call => Line::Ask {
            client: turn.client,
            call,
        },
    }
}

/// Does what a turn asks.
fn do_turn<D: Disk>(store: &mut Store<D>, turn: &Turn) -> Result<(), Stop>
    requires turn { (1 ≤ turn.now.client) × (turn.now.client ≤ 64) × IsInRange drawn_slots turn.now.call }
    requires running { store.old.failed ≡ None }
    ensures ok { OnOk result (DoesLines store.old.journal store.new.journal (lines_in turn.now)) }
    ensures goes_on { OnOk result (StaysRunning D.faults store.old store.new) }
    ensures stopped { IfErr result (λ s. StopsLines D.faults s store.old store.new (lines_in turn.now)) }
{
    obey(store, &mut Nowhere, line_of(turn))?;
    if turn.collects {
        obey(store, &mut Nowhere, Line::CollectStep)?;
    }
    Ok(())
}

/// Does what all turns ask, and then collects.
fn do_turns<D: Disk>(store: &mut Store<D>, generator: &mut Generator) -> Result<(), Stop>
    requires running { store.old.failed ≡ None }
    ensures ok { OnOk result (DoesAll generator.old store.old.journal store.new.journal) }
    ensures goes_on { OnOk result (StaysRunning D.faults store.old store.new) }
    ensures stopped { IfErr result (λ s. StopsAll D.faults generator.old s store.old store.new) }
{
    'turns: while let Some(turn) = generator.next() {
        do_turn(store, &turn)?;
    }
    gc::collect_all(store, &mut Nowhere)
}

/// Tells what happened in the store, and answers the status.
fn tell<W: Sink, D: Disk>(store: &Store<D>, out: &mut W) -> u8
    ensures statuses { (result ≡ 0) ⊎ ((result ≡ 5) ⊎ (result ≡ 8)) }
    ensures done { result ≡ 0 → Appends (W.written out.old) (W.written out.new) (generated_text store.now.journal.history) }
    ensures write { result ≡ 5 → AppendsFront (W.written out.old) (W.written out.new) (generated_text store.now.journal.history)
        × Rose (W.faults out.old) (W.faults out.new) }
    ensures memory { result ≡ 8 → EndsWith (W.written out.old) (W.written out.new)
        (W.faults out.old) (W.faults out.new) [] (codes "refused: memory\n") }
    ensures later { W.faults out.old ≤ W.faults out.new }
{
    let Ok(ids) = store.stored() else {
        write_last(out, b"refused: memory\n");
        return OUT_OF_MEMORY;
    };
    let tally = tally_of(store.history());
    let line = generated_line(
        tally.commits,
        tally.aborts,
        tally.busy,
        tally.deleted,
        ids.items().len() as u64,
    );
    match write_all(out, line.as_str().as_bytes()) {
        Ok(()) => DONE,
        Err(_) => WRITE_FAULT,
    }
}

/// Does what is asked in a store that is just opened, and answers the status.
fn generate_in<W: Sink, D: Disk>(
    alloc: Global,
    store: &mut Store<D>,
    out: &mut W,
    asked: Asked,
) -> u8
    requires opened { IsJustOpened store.old }
    requires clients { asked.clients ≤ 64 }
    ensures generated { (disk : _) (left : _) (reads faults : ℕ) → faults ≤ D.faults store.old.disk → ReadsAs D.content object_slots disk store.old.journal.opening
        → Generated D.content D.may_leave asked disk
        (outside left reads (W.written out.old) (W.faults out.old) faults)
        (outside left reads (W.written out.new) (W.faults out.new) (D.faults store.new.disk))
        result store.new }
    ensures out_later { W.faults out.old ≤ W.faults out.new }
    ensures disk_later { D.faults store.old.disk ≤ D.faults store.new.disk }
{
    // What is known of the journal: this call hands the facts out, and so does the other.
    let _ = store.history();
    let Ok(mut generator) = Generator::new(alloc, asked.seed, asked.clients, asked.transactions)
    else {
        write_last(out, b"refused: memory\n");
        return OUT_OF_MEMORY;
    };
    let done = do_turns(store, &mut generator);
    let _ = store.history();
    match done {
        Ok(()) => tell(store, out),
        Err(stop) => end_stopped(out, stop),
    }
}

/// Opens the store that the disk holds, does the generated calls in it, collects, and tells what happened.
pub(crate) fn generate_calls<W: Sink, D: Disk>(
    alloc: Global,
    out: &mut W,
    disk: D,
    asked: Asked,
) -> (u8, Ended<D>)
    requires clients { asked.clients ≤ 64 }
    ensures generated { (left : _) (reads : ℕ) → Unopened D.content D.may_leave D.moment D.left_since disk
        (outside left reads (W.written out.old) (W.faults out.old) (D.faults disk))
        (outside left reads (W.written out.new) (W.faults out.new) (D.faults (disk_in result.1)))
        result.0 result.1
        ⊎ ((v : _) × (result.1 ≡ Ended.Kept v) × Generated D.content D.may_leave asked disk
        (outside left reads (W.written out.old) (W.faults out.old) (D.faults disk))
        (outside left reads (W.written out.new) (W.faults out.new) (D.faults (disk_in result.1)))
        result.0 v) }
    ensures statuses { (result.0 ≡ 0) ⊎ ((result.0 ≡ 5) ⊎ ((result.0 ≡ 6) ⊎ ((result.0 ≡ 7) ⊎ ((result.0 ≡ 8) ⊎ (result.0 ≡ 9))))) }
    ensures out_later { W.faults out.old ≤ W.faults out.new }
    ensures disk_later { D.faults disk ≤ D.faults (disk_in result.1) }
{
    match Store::open(alloc, disk) {
        Ok(store) => {
            let mut store = store;
            let status = generate_in(alloc, &mut store, out, asked);
            (status, Ended::Kept(store.into_logged()))
        }
        Err((refusal, disk)) => (refuse(out, &refusal), Ended::Shut(disk)),
    }
}
