//! The lines of a script, one after another.
ghost use Rattle.std.specs.Prelude.{◌≡◌, ◌≤◌, OnOk, IfErr, IsErrOf};
ghost use Rattle.disk_model.specs.Causes.{Rose};
ghost use Rattle.map_calls.specs.Views.{GoesOn};
ghost use Rattle.map_script.specs.Stopping.{CameToEnd, StopsScript};
ghost use Rattle.stored_map.specs.Stores.{view_of, leaving, Tell};

use crate::answering::do_line;
use crate::stop::Stop;
use disk_model::Disk;
use outside_io::{Sink, Source};
use script_lines::{Found, LineReader};
use std::alloc::Global;
use stored_map::StoredMap;

/// Does each line of the source in order, and writes its line before the next one is done.
pub(crate) fn do_lines<D: Disk, R: Source, W: Sink>(
    alloc: Global,
    store: &mut StoredMap<D>,
    source: &mut R,
    out: &mut W,
) -> Result<(), Stop>
    requires goes { GoesOn (view_of D.faults store.old) (leaving D.may_leave store.old) }
    ensures ok { OnOk result (CameToEnd (Tell D.content) (R.left source.old) (R.left source.new) (view_of D.faults store.old) (view_of D.faults store.new) (leaving D.may_leave store.new) (W.written out.old) (W.written out.new)) }
    ensures stopped { IfErr result (λ s. StopsScript (Tell D.content) s (R.left source.old) (R.left source.new) (view_of D.faults store.old) (view_of D.faults store.new) (leaving D.may_leave store.new) (W.written out.old) (W.written out.new)) }
    ensures read { IsErrOf result Stop.Read → Rose (R.faults source.old) (R.faults source.new) }
    ensures write { IsErrOf result Stop.Write → Rose (W.faults out.old) (W.faults out.new) }
    ensures later { (view_of D.faults store.old).faults ≤ (view_of D.faults store.new).faults }
    ensures source_later { R.faults source.old ≤ R.faults source.new }
    ensures out_later { W.faults out.old ≤ W.faults out.new }
{
    let mut lines = LineReader::new();
    let mut number: u32 = 1;
    'lines: loop {
        match lines.advance(source) {
            Ok(Found::Line) => match do_line(alloc, store, out, number, lines.line()) {
                Ok(()) => number += 1,
                Err(stop) => return Err(stop),
            },
            Ok(Found::LastLine) => return do_line(alloc, store, out, number, lines.line()),
            Ok(Found::LongLine) => return Err(Stop::Line(number)),
            Ok(Found::End) => return Ok(()),
            Err(_) => return Err(Stop::Read),
        }
    }
}
