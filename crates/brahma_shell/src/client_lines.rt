//! The script of `run`, which is read whole before any of it is done.
ghost use Rattle.std.specs.Prelude.{◌≡◌, ◌≤◌, ◌∷◌, ◌++◌, [], List, OnOk, IfOk, IfErr, IsErrOf};
ghost use Rattle.disk_model.specs.Causes.{Rose};
ghost use Rattle.script_lines.specs.declared.grammar.Line.{Line as ScriptLine};
ghost use Rattle.brahma_shell.specs.ClientScripts.{AreOfLines};
ghost use Rattle.brahma_shell.specs.ClientLines.{MayComeNext, ReadsAll, StopsTaking, StopsReading};

use crate::client_scripts::ClientScripts;
use crate::line_refusal::LineRefusal;
use crate::replay::Stop;
use crate::script::Script;
use outside_io::Source;
use script_lines::{Found, accepted};
use std::alloc::Global;

/// Takes the line of this number, where it may come next.
fn take_line(scripts: &mut ClientScripts, ids: u32, number: u32, bytes: &[u8]) -> Result<(), Stop>
    ensures taken { OnOk result ((asked : List ScriptLine) → AreOfLines asked scripts.old
        → (next : ScriptLine) × MayComeNext ids number bytes.now asked next × AreOfLines (asked ++ next ∷ []) scripts.new) }
    ensures stopped { IfErr result (λ s. StopsTaking s ids number bytes.now scripts.old) }
{
    let Some(line) = accepted(ids, number, bytes) else {
        return Err(Stop::Line(number));
    };
    match scripts.take(line) {
        Ok(()) => Ok(()),
        Err(LineRefusal::NotAllowed) => Err(Stop::Line(number)),
        Err(LineRefusal::Memory) => Err(Stop::Memory),
    }
}

/// Reads the source to its end, for a store with so many ids, and answers the clients' scripts. It ends early at the first line
/// that is refused.
pub(crate) fn read_scripts<R: Source>(
    alloc: Global,
    ids: u32,
    source: &mut R,
) -> Result<ClientScripts, Stop>
    ensures read { IfOk result (λ scripts. (asked : List ScriptLine) × AreOfLines asked scripts
        × ReadsAll ids (R.left source.old) (R.left source.new) asked) }
    ensures stopped { IfErr result (λ s. StopsReading s ids (R.left source.old) (R.left source.new)) }
    ensures fault { IsErrOf result Stop.Read → Rose (R.faults source.old) (R.faults source.new) }
    ensures later { R.faults source.old ≤ R.faults source.new }
{
    let mut script = Script::new();
    let mut scripts = ClientScripts::new(alloc);
    'lines: loop {
        match script.lines.advance(source) {
            Ok(Found::Line) => {
                match take_line(&mut scripts, ids, script.number, script.lines.line()) {
                    Ok(()) => {}
                    Err(stop) => return Err(stop),
                }
                script.number += 1;
            }
            Ok(Found::LastLine) => {
                return match take_line(&mut scripts, ids, script.number, script.lines.line()) {
                    Ok(()) => Ok(scripts),
                    Err(stop) => Err(stop),
                };
            }
            Ok(Found::LongLine) => return Err(Stop::Line(script.number)),
            Ok(Found::End) => return Ok(scripts),
            Err(_) => return Err(Stop::Read),
        }
    }
}
