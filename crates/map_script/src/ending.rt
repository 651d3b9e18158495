//! A whole script, to its last line and its status.
ghost use Rattle.std.specs.Prelude.{◌≡◌, ◌⊎◌, ◌≤◌, ◌++◌, true, length, OnOk, IfErr, IsErrOf};
ghost use Rattle.std.specs.Io.KnownBytes.{Appends};
ghost use Rattle.disk_model.specs.Causes.{Rose};
ghost use Rattle.map_calls.specs.Output.{keys_line};
ghost use Rattle.map_calls.specs.Views.{GoesOn};
ghost use Rattle.map_script.specs.Stopping.{StopsEnd};
ghost use Rattle.map_script.specs.Mapped.{EndsWell, StopsAnywhere, Mapped, streams};
ghost use Rattle.stored_map.specs.Stores.{view_of, leaving, Tell};

use crate::printing::{end_stopped, tell};
use crate::script::do_lines;
use crate::stop::Stop;
use disk_model::Disk;
use map_calls::keys_line;
use outside_io::{Sink, Source};
use std::alloc::Global;
use stored_map::StoredMap;

/// Every line was done.
const DONE: u8 = 0;

/// Writes how many keys have a value.
fn tell_keys<D: Disk, W: Sink>(store: &mut StoredMap<D>, out: &mut W) -> Result<(), Stop>
    requires running { (view_of D.faults store.old).running ≡ true }
    requires collected { (view_of D.faults store.old).room ≡ (view_of D.faults store.old).map.free }
    ensures same { OnOk result ((view_of D.faults store.new).map ≡ (view_of D.faults store.old).map) }
    ensures collected { OnOk result ((view_of D.faults store.new).room ≡ (view_of D.faults store.new).map.free) }
    ensures goes { OnOk result (GoesOn (view_of D.faults store.new) (leaving D.may_leave store.new)) }
    ensures printed { OnOk result (Appends (W.written out.old) (W.written out.new) (keys_line (length (view_of D.faults store.old).map.pairs))) }
    ensures stopped { IfErr result (λ s. StopsEnd s (view_of D.faults store.old) (view_of D.faults store.new) (leaving D.may_leave store.new) (W.written out.old) (W.written out.new)) }
    ensures write { IsErrOf result Stop.Write → Rose (W.faults out.old) (W.faults out.new) }
    ensures later { (view_of D.faults store.old).faults ≤ (view_of D.faults store.new).faults }
    ensures out_later { W.faults out.old ≤ W.faults out.new }
{
    match store.keys() {
        Ok(keys) => tell(out, &keys_line(keys)),
        Err(failure) => Err(Stop::Failed(failure)),
    }
}

/// Collects until there is nothing to do, and writes how many keys have a value.
fn finish<D: Disk, W: Sink>(store: &mut StoredMap<D>, out: &mut W) -> Result<(), Stop>
    requires running { (view_of D.faults store.old).running ≡ true }
    ensures same { OnOk result ((view_of D.faults store.new).map ≡ (view_of D.faults store.old).map) }
    ensures collected { OnOk result ((view_of D.faults store.new).room ≡ (view_of D.faults store.new).map.free) }
    ensures goes { OnOk result (GoesOn (view_of D.faults store.new) (leaving D.may_leave store.new)) }
    ensures printed { OnOk result (Appends (W.written out.old) (W.written out.new) (keys_line (length (view_of D.faults store.old).map.pairs))) }
    ensures stopped { IfErr result (λ s. StopsEnd s (view_of D.faults store.old) (view_of D.faults store.new) (leaving D.may_leave store.new) (W.written out.old) (W.written out.new)) }
    ensures write { IsErrOf result Stop.Write → Rose (W.faults out.old) (W.faults out.new) }
    ensures later { (view_of D.faults store.old).faults ≤ (view_of D.faults store.new).faults }
    ensures out_later { W.faults out.old ≤ W.faults out.new }
{
    match store.collect() {
        Ok(()) => tell_keys(store, out),
        Err(failure) => Err(Stop::Failed(failure)),
    }
}

/// Does each line of the source, and writes how many keys have a value then.
fn do_script<D: Disk, R: Source, W: Sink>(
    alloc: Global,
    store: &mut StoredMap<D>,
    source: &mut R,
    out: &mut W,
) -> Result<(), Stop>
    requires goes { GoesOn (view_of D.faults store.old) (leaving D.may_leave store.old) }
    ensures ok { OnOk result (EndsWell (Tell D.content) (R.left source.old) (R.left source.new) (view_of D.faults store.old) (view_of D.faults store.new) (leaving D.may_leave store.new) (W.written out.old) (W.written out.new)) }
    ensures stopped { IfErr result (λ s. StopsAnywhere (Tell D.content) s (R.left source.old) (R.left source.new) (view_of D.faults store.old) (view_of D.faults store.new) (leaving D.may_leave store.new) (W.written out.old) (W.written out.new)) }
    ensures read { IsErrOf result Stop.Read → Rose (R.faults source.old) (R.faults source.new) }
    ensures write { IsErrOf result Stop.Write → Rose (W.faults out.old) (W.faults out.new) }
    ensures later { (view_of D.faults store.old).faults ≤ (view_of D.faults store.new).faults }
    ensures source_later { R.faults source.old ≤ R.faults source.new }
    ensures out_later { W.faults out.old ≤ W.faults out.new }
{
    match do_lines(alloc, store, source, out) {
        Ok(()) => finish(store, out),
        Err(stop) => Err(stop),
    }
}

/// Does each line of the source in the map that the store keeps, one after another, and writes the line of each after its commit.
/// A `put` for which too few ids are free collects and tries once more. At the end it collects, and writes how many keys have a
/// value. Where the script stops, the last line says why.
///
/// The status is 0 where each line was done, 3 where a line is refused, 4 where the source failed and 5 where the sink did, 6 where
/// the disk failed, 7 where the store isn't opened again after a loss of power or keeps no map then, 8 where memory is out, and 9
/// where the history or the log is full.
pub fn map_script<D: Disk, R: Source, W: Sink>(
    alloc: Global,
    store: &mut StoredMap<D>,
    source: &mut R,
    out: &mut W,
) -> u8
    requires goes { GoesOn (view_of D.faults store.old) (leaving D.may_leave store.old) }
    ensures mapped { Mapped (Tell D.content)
        (streams (R.left source.old) (R.faults source.old) (W.written out.old) (W.faults out.old))
        (streams (R.left source.new) (R.faults source.new) (W.written out.new) (W.faults out.new))
        (view_of D.faults store.old) (view_of D.faults store.new) (leaving D.may_leave store.new) result }
    ensures later { (view_of D.faults store.old).faults ≤ (view_of D.faults store.new).faults }
    ensures source_later { R.faults source.old ≤ R.faults source.new }
    ensures out_later { W.faults out.old ≤ W.faults out.new }
{
    match do_script(alloc, store, source, out) {
        Ok(()) => DONE,
        Err(stop) => end_stopped(out, stop),
    }
}
