//! What a line asks, done in the store, and its line.
ghost use Rattle.std.specs.Prelude.{◌≡◌, ◌≤◌, true, OnOk, IfErr, IsErrOf};
ghost use Rattle.std.specs.Io.KnownBytes.{Appends};
ghost use Rattle.disk_model.specs.Causes.{Rose};
ghost use Rattle.map_calls.specs.Output.{list_line};
ghost use Rattle.map_calls.specs.Views.{GoesOn};
ghost use Rattle.map_script.specs.Stopping.{Answers, StopsAnswer, DoesLine, StopsLine};
ghost use Rattle.map_script.specs.Listing.{StopsList};
ghost use Rattle.stored_map.specs.Stores.{view_of, leaving, Tell};

use crate::placing::place;
use crate::printing::{print, tell};
use crate::stop::Stop;
use disk_model::Disk;
use map_calls::{
    Failure, Line, Put, accepted, deleted_line, found_line, list_line, put_full_line, put_line,
    reopened_line,
};
use outside_io::Sink;
use std::alloc::Global;
use stored_map::StoredMap;

/// Gives the key this value, and writes the line.
fn put<D: Disk, W: Sink>(
    store: &mut StoredMap<D>,
    out: &mut W,
    key: u64,
    value: u64,
) -> Result<(), Stop>
    requires running { (view_of D.faults store.old).running ≡ true }
    ensures ok { OnOk result (Answers (Tell D.content) (Line.Put key value) (view_of D.faults store.old) (view_of D.faults store.new) (leaving D.may_leave store.new) (W.written out.old) (W.written out.new)) }
    ensures stopped { IfErr result (λ s. StopsAnswer (Tell D.content) s (Line.Put key value) (view_of D.faults store.old) (view_of D.faults store.new) (leaving D.may_leave store.new) (W.written out.old) (W.written out.new)) }
    ensures write { IsErrOf result Stop.Write → Rose (W.faults out.old) (W.faults out.new) }
    ensures later { (view_of D.faults store.old).faults ≤ (view_of D.faults store.new).faults }
    ensures out_later { W.faults out.old ≤ W.faults out.new }
{
    match place(store, key, value) {
        Ok(Put::Stored { old }) => tell(out, &put_line(old)),
        Ok(Put::NoRoom) => tell(out, &put_full_line()),
        Err(failure) => Err(Stop::Failed(failure)),
    }
}

/// Writes the key's value.
fn get<D: Disk, W: Sink>(store: &mut StoredMap<D>, out: &mut W, key: u64) -> Result<(), Stop>
    requires running { (view_of D.faults store.old).running ≡ true }
    ensures ok { OnOk result (Answers (Tell D.content) (Line.Get key) (view_of D.faults store.old) (view_of D.faults store.new) (leaving D.may_leave store.new) (W.written out.old) (W.written out.new)) }
    ensures stopped { IfErr result (λ s. StopsAnswer (Tell D.content) s (Line.Get key) (view_of D.faults store.old) (view_of D.faults store.new) (leaving D.may_leave store.new) (W.written out.old) (W.written out.new)) }
    ensures write { IsErrOf result Stop.Write → Rose (W.faults out.old) (W.faults out.new) }
    ensures later { (view_of D.faults store.old).faults ≤ (view_of D.faults store.new).faults }
    ensures out_later { W.faults out.old ≤ W.faults out.new }
{
    match store.get(key) {
        Ok(value) => tell(out, &found_line(value)),
        Err(failure) => Err(Stop::Failed(failure)),
    }
}

/// Takes the key's value away, and writes it.
fn remove<D: Disk, W: Sink>(store: &mut StoredMap<D>, out: &mut W, key: u64) -> Result<(), Stop>
    requires running { (view_of D.faults store.old).running ≡ true }
    ensures ok { OnOk result (Answers (Tell D.content) (Line.Delete key) (view_of D.faults store.old) (view_of D.faults store.new) (leaving D.may_leave store.new) (W.written out.old) (W.written out.new)) }
    ensures stopped { IfErr result (λ s. StopsAnswer (Tell D.content) s (Line.Delete key) (view_of D.faults store.old) (view_of D.faults store.new) (leaving D.may_leave store.new) (W.written out.old) (W.written out.new)) }
    ensures write { IsErrOf result Stop.Write → Rose (W.faults out.old) (W.faults out.new) }
    ensures later { (view_of D.faults store.old).faults ≤ (view_of D.faults store.new).faults }
    ensures out_later { W.faults out.old ≤ W.faults out.new }
{
    match store.remove(key) {
        Ok(value) => tell(out, &deleted_line(value)),
        Err(failure) => Err(Stop::Failed(failure)),
    }
}

/// Writes the line of these pairs. Where memory is out nothing is written.
fn tell_list<W: Sink>(alloc: Global, out: &mut W, pairs: &[(u64, u64)]) -> Result<(), Stop>
    ensures ok { OnOk result (Appends (W.written out.old) (W.written out.new) (list_line pairs.now)) }
    ensures stopped { IfErr result (λ s. StopsList s pairs.now (W.written out.old) (W.written out.new)) }
    ensures write { IsErrOf result Stop.Write → Rose (W.faults out.old) (W.faults out.new) }
    ensures out_later { W.faults out.old ≤ W.faults out.new }
{
    match list_line(alloc, pairs) {
        Ok(line) => print(out, line.as_bytes()),
        Err(_) => Err(Stop::Failed(Failure::Memory)),
    }
}

/// Writes all pairs.
fn list<D: Disk, W: Sink>(alloc: Global, store: &mut StoredMap<D>, out: &mut W) -> Result<(), Stop>
    requires running { (view_of D.faults store.old).running ≡ true }
    ensures ok { OnOk result (Answers (Tell D.content) Line.List (view_of D.faults store.old) (view_of D.faults store.new) (leaving D.may_leave store.new) (W.written out.old) (W.written out.new)) }
    ensures stopped { IfErr result (λ s. StopsAnswer (Tell D.content) s Line.List (view_of D.faults store.old) (view_of D.faults store.new) (leaving D.may_leave store.new) (W.written out.old) (W.written out.new)) }
    ensures write { IsErrOf result Stop.Write → Rose (W.faults out.old) (W.faults out.new) }
    ensures later { (view_of D.faults store.old).faults ≤ (view_of D.faults store.new).faults }
    ensures out_later { W.faults out.old ≤ W.faults out.new }
{
    let pairs = match store.list(alloc) {
        Ok(pairs) => pairs,
        Err(failure) => return Err(Stop::Failed(failure)),
    };
    tell_list(alloc, out, pairs.as_slice())
}

/// Loses power, opens the store again, and writes how many keys have a value then.
fn crash<D: Disk, W: Sink>(store: &mut StoredMap<D>, out: &mut W, pick: u32) -> Result<(), Stop>
    requires running { (view_of D.faults store.old).running ≡ true }
    ensures ok { OnOk result (Answers (Tell D.content) (Line.Crash pick) (view_of D.faults store.old) (view_of D.faults store.new) (leaving D.may_leave store.new) (W.written out.old) (W.written out.new)) }
    ensures stopped { IfErr result (λ s. StopsAnswer (Tell D.content) s (Line.Crash pick) (view_of D.faults store.old) (view_of D.faults store.new) (leaving D.may_leave store.new) (W.written out.old) (W.written out.new)) }
    ensures write { IsErrOf result Stop.Write → Rose (W.faults out.old) (W.faults out.new) }
    ensures later { (view_of D.faults store.old).faults ≤ (view_of D.faults store.new).faults }
    ensures out_later { W.faults out.old ≤ W.faults out.new }
{
    match store.lose_power(pick) {
        Ok(keys) => tell(out, &reopened_line(keys)),
        Err(unopened) => Err(Stop::Unopened(unopened)),
    }
}

/// Does what a line asks, and writes its line.
fn answer<D: Disk, W: Sink>(
    alloc: Global,
    store: &mut StoredMap<D>,
    out: &mut W,
    line: Line,
) -> Result<(), Stop>
    requires goes { GoesOn (view_of D.faults store.old) (leaving D.may_leave store.old) }
    ensures ok { OnOk result (Answers (Tell D.content) line (view_of D.faults store.old) (view_of D.faults store.new) (leaving D.may_leave store.new) (W.written out.old) (W.written out.new)) }
    ensures stopped { IfErr result (λ s. StopsAnswer (Tell D.content) s line (view_of D.faults store.old) (view_of D.faults store.new) (leaving D.may_leave store.new) (W.written out.old) (W.written out.new)) }
    ensures write { IsErrOf result Stop.Write → Rose (W.faults out.old) (W.faults out.new) }
    ensures later { (view_of D.faults store.old).faults ≤ (view_of D.faults store.new).faults }
    ensures out_later { W.faults out.old ≤ W.faults out.new }
{
    match line {
        Line::Nothing => Ok(()),
        Line::Put { key, value } => put(store, out, key, value),
        Line::Get { key } => get(store, out, key),
        Line::Delete { key } => remove(store, out, key),
        Line::List => list(alloc, store, out),
        Line::Crash { pick } => crash(store, out, pick),
    }
}

/// Does the line of this number, and writes its line.
pub(crate) fn do_line<D: Disk, W: Sink>(
    alloc: Global,
    store: &mut StoredMap<D>,
    out: &mut W,
    number: u32,
    bytes: &[u8],
) -> Result<(), Stop>
    requires goes { GoesOn (view_of D.faults store.old) (leaving D.may_leave store.old) }
    ensures ok { OnOk result (DoesLine (Tell D.content) number bytes.now (view_of D.faults store.old) (view_of D.faults store.new) (leaving D.may_leave store.new) (W.written out.old) (W.written out.new)) }
    ensures stopped { IfErr result (λ s. StopsLine (Tell D.content) s number bytes.now (view_of D.faults store.old) (view_of D.faults store.new) (leaving D.may_leave store.new) (W.written out.old) (W.written out.new)) }
    ensures write { IsErrOf result Stop.Write → Rose (W.faults out.old) (W.faults out.new) }
    ensures later { (view_of D.faults store.old).faults ≤ (view_of D.faults store.new).faults }
    ensures out_later { W.faults out.old ≤ W.faults out.new }
{
    match accepted(number, bytes) {
        Some(line) => answer(alloc, store, out, line),
        None => Err(Stop::Line(number)),
    }
}
