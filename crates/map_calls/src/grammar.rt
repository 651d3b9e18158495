//! What the lines of the command `map` ask.
ghost use Rattle.std.specs.Prelude.{◌≡◌, MatchOption};
ghost use Rattle.script_lines.specs.Fields.{fields_of};
ghost use Rattle.script_lines.specs.Grammar.{is_comment};
ghost use Rattle.map_calls.specs.Operands.{listed};
ghost use Rattle.map_calls.specs.Grammar.{request_of, meaning_of, IsAccepted, IsRefused};

use crate::fields::{Operands, next_field, operands_of};
use crate::numbers::{payload_of, pick_of};

/// What a line of the command `map` asks.
#[derive(Clone, Copy, PartialEq, Eq, Debug)]
pub enum Line {
    /// Nothing: it has no field, or is a comment.
    Nothing,
    /// `put K V`: the key is to have this value.
    Put { key: u64, value: u64 },
    /// `get K`: which value the key has.
    Get { key: u64 },
    /// `del K`: the key is to have no value.
    Delete { key: u64 },
    /// `list`: all keys with their values.
    List,
    /// `crash K`: power is lost, with this pick of what it leaves of the disk, and the store is opened again.
    Crash { pick: u32 },
}

/// Whether the first field begins a comment.
fn is_comment(field: &[u8]) -> bool
    ensures { result ≡ is_comment field.now }
{
    matches!(field, [b'#', ..])
}

/// What a line asks, by its first field and those after it.
fn request_of(verb: &[u8], operands: Operands<'_>) -> Option<Line>
    ensures { result ≡ request_of verb.now (listed operands.entry) }
{
    match (verb, operands) {
        (b"put", Operands::Two(key, value)) => {
            let key = payload_of(key)?;
            let value = payload_of(value)?;
            Some(Line::Put { key, value })
        }
        (b"get", Operands::One(key)) => Some(Line::Get {
            key: payload_of(key)?,
        }),
        (b"del", Operands::One(key)) => Some(Line::Delete {
            key: payload_of(key)?,
        }),
        (b"list", Operands::Nil) => Some(Line::List),
        (b"crash", Operands::One(pick)) => Some(Line::Crash {
            pick: pick_of(pick)?,
        }),
        _ => None,
    }
}

/// What a line asks, where it is in the grammar.
fn meaning_of(line: &[u8]) -> Option<Line>
    ensures { result ≡ meaning_of line.now }
{
    let Some((verb, rest)) = next_field(line) else {
        return Some(Line::Nothing);
    };
    if is_comment(verb) {
        return Some(Line::Nothing);
    }
    match operands_of(rest) {
        Some(operands) => request_of(verb, operands),
        None => None,
    }
}

/// The most bytes that a line may have, without its end.
const MAX_LINE: usize = 128;

/// The most lines that a script may have.
const MAX_LINES: u32 = 65_536;

/// What the line of this number asks, counted from 1, where it is within the limits and in the grammar.
pub fn accepted(number: u32, line: &[u8]) -> Option<Line>
    ensures { MatchOption result (IsRefused number line.now)
        (λ asked. IsAccepted number line.now × (meaning_of line.now ≡ Some asked)) }
{
    if line.len() > MAX_LINE || number > MAX_LINES {
        return None;
    }
    meaning_of(line)
}
