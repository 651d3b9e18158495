//! The script of a replay, which is read line by line.
ghost use Rattle.std.specs.Prelude.{◌≡◌, []};
ghost use Rattle.script_lines.specs.LineReader.{pending};

use script_lines::LineReader;

/// The script of a replay.
#[derive(Drop)]
pub(crate) struct Script {
    /// Its lines.
    pub(crate) lines: LineReader,
    /// The number of the next line, counted from 1.
    pub(crate) number: u32,
}

impl Script {
    /// Of which nothing is read yet.
    pub(crate) fn new() -> Script
        ensures pending { pending result.lines ≡ [] }
        ensures number { result.number ≡ 1 }
    {
        Script {
            lines: LineReader::new(),
            number: 1,
        }
    }
}
