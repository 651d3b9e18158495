//! What the lines of a script ask.
ghost use Rattle.std.specs.Prelude.{◌≡◌, ◌↔◌, ◌*◌, ◌<◌, ◌∷◌, IfSome, MatchOption, Option, Some, None, false};
ghost use Rattle.script_lines.specs.Fields.{fields_of};
ghost use Rattle.script_lines.specs.Numbers.{client_of};
ghost use Rattle.script_lines.specs.Operands.{listed};
ghost use Rattle.script_lines.specs.Grammar.{request_of, is_collector, collector_line, is_cleaner, clean_line, is_crash, crash_line, lone_line, line_of_party, is_comment, meaning_of, IsOfStore, IsAccepted, IsRefused, IsClient, IsLineInRange};

use crate::fields::{Operands, next_short_field, operands_of};
use crate::numbers::{client_of, page_of, payload_of, pick_of, register_of, slot_of, source_of};
use crate::verb::{Verb, next_verb};
use plain_model::Call;

/// What a line of a script asks.
#[derive(Clone, Copy, PartialEq, Eq, Debug)]
pub enum Line {
    /// Nothing: it has no field, or is a comment.
    Nothing,
    /// One call of the client's transaction.
    Ask { client: u8, call: Call },
    /// The client's transaction is undone, and ends.
    Abort { client: u8 },
    /// The last write of the client's transaction that isn't undone is undone, or the transaction
    /// ends where there is none.
    Undo { client: u8 },
    /// One step of the collector.
    CollectStep,
    /// The collector goes on until there is nothing to do, or until it has looked at as many objects of its queue as the
    /// store has ids.
    CollectAll,
    /// The page is written in place, counted from 0.
    Clean { page: u16 },
    /// A checkpoint: the log begins anew, in its other area.
    Turn,
    /// Power is lost, with this pick of what it leaves of the disk, and the store is opened again.
    Crash { pick: u32 },
}

/// The line that asks this call of the client.
#[inline(always)]
fn ask(client: u8, call: Call) -> Option<Line>
    ensures { result ≡ Some (Line.Ask client call) }
{
    Some(Line::Ask { client, call })
}

/// What a client's line asks, by its verb and the fields after it.
#[inline(always)]
fn request_of(client: u8, verb: Verb, operands: Operands<'_>) -> Option<Line>
    requires { IsClient client }
    ensures value { result ≡ request_of client verb (listed operands.entry) }
    ensures in_range { IfSome result IsLineInRange }
{
    match (verb, operands) {
        (Verb::Begin, Operands::Nil) => ask(client, Call::Begin),
        (Verb::Read, Operands::Three(r, slot, into)) => {
            let r = register_of(r)?;
            let slot = slot_of(slot)?;
            let into = register_of(into)?;
            ask(client, Call::Read { r, slot, into })
        }
        (Verb::Make, Operands::One(into)) => {
            let into = register_of(into)?;
            ask(client, Call::Make { into })
        }
        (Verb::Store, Operands::Three(r, slot, from)) => {
            let r = register_of(r)?;
            let slot = slot_of(slot)?;
            let from = source_of(from)?;
            ask(client, Call::Store { r, slot, from })
        }
        (Verb::Get, Operands::One(r)) => {
            let r = register_of(r)?;
            ask(client, Call::GetPay { r })
        }
        (Verb::Set, Operands::Two(r, value)) => {
            let r = register_of(r)?;
            let value = payload_of(value)?;
            ask(client, Call::SetPay { r, value })
        }
        (Verb::Release, Operands::One(r)) => {
            let r = register_of(r)?;
            ask(client, Call::Release { r })
        }
        (Verb::Commit, Operands::Nil) => ask(client, Call::Commit),
        (Verb::Abort, Operands::Nil) => Some(Line::Abort { client }),
        (Verb::Undo, Operands::Nil) => Some(Line::Undo { client }),
        _ => None,
    }
}

/// Whether the first field begins a comment.
#[inline(always)]
fn is_comment(field: &[u8]) -> bool
    ensures { result ≡ is_comment field.now }
{
    matches!(field, [b'#', ..])
}

/// Whether the first field names the collector.
fn is_collector(party: &[u8]) -> bool
    ensures { result ≡ is_collector party.now }
{
    matches!(party, b"gc")
}

/// What a line asks of the collector, by the fields after `gc`.
fn collector_line(steps: &[u8], operands: Operands<'_>) -> Option<Line>
    ensures { result ≡ collector_line steps.now (listed operands.entry) }
{
    match (steps, operands) {
        (b"step", Operands::Nil) => Some(Line::CollectStep),
        (b"all", Operands::Nil) => Some(Line::CollectAll),
        _ => None,
    }
}

/// Whether the first field names the page cleaner.
fn is_cleaner(party: &[u8]) -> bool
    ensures { result ≡ is_cleaner party.now }
{
    matches!(party, b"clean")
}

/// What a line asks of the page cleaner, by the fields after `clean`.
fn clean_line(page: &[u8], operands: Operands<'_>) -> Option<Line>
    ensures { result ≡ clean_line page.now (listed operands.entry) }
{
    match operands {
        Operands::Nil => Some(Line::Clean {
            page: page_of(page)?,
        }),
        _ => None,
    }
}

/// Whether the first field names a loss of power.
fn is_crash(party: &[u8]) -> bool
    ensures { result ≡ is_crash party.now }
{
    matches!(party, b"crash")
}

/// What a line asks of the power, by the fields after `crash`.
fn crash_line(pick: &[u8], operands: Operands<'_>) -> Option<Line>
    ensures { result ≡ crash_line pick.now (listed operands.entry) }
{
    match operands {
        Operands::Nil => Some(Line::Crash {
            pick: pick_of(pick)?,
        }),
        _ => None,
    }
}

/// What a line of one field asks.
fn lone_line(word: &[u8]) -> Option<Line>
    ensures { result ≡ lone_line word.now }
{
    match word {
        b"turn" => Some(Line::Turn),
        _ => None,
    }
}

/// What a line asks of the store, by its first two fields and the bytes after them.
fn line_of_store(party: &[u8], word: &[u8], rest: &[u8]) -> Option<Line>
    requires { client_of party.now ≡ None }
    ensures value { result ≡ line_of_party party.now (word.now ∷ fields_of rest.now) }
    ensures in_range { IfSome result IsLineInRange }
{
    let operands = operands_of(rest)?;
    if is_collector(party) {
        return collector_line(word, operands);
    }
    if is_cleaner(party) {
        return clean_line(word, operands);
    }
    if is_crash(party) {
        return crash_line(word, operands);
    }
    None
}

/// What a line asks, where it is in the grammar.
fn meaning_of(line: &[u8]) -> Option<Line>
    ensures value { result ≡ meaning_of line.now }
    ensures in_range { IfSome result IsLineInRange }
{
    let Some((party, rest)) = next_short_field(line) else {
        return Some(Line::Nothing);
    };
    if is_comment(party) {
        return Some(Line::Nothing);
    }
    let Some((word, verb, rest)) = next_verb(rest) else {
        return lone_line(party);
    };
    if let Some(client) = client_of(party) {
        return request_of(client, verb?, operands_of(rest)?);
    }
    line_of_store(party, word, rest)
}

/// The most bytes that a line may have, without its end.
const MAX_LINE: usize = 128;

/// The most lines that a script may have.
const MAX_LINES: u32 = 65_536;

/// Whether the line names a page, and a store with so many ids, eight a page, doesn't have it.
#[inline(always)]
fn is_beyond_store(ids: u32, asked: &Option<Line>) -> bool
    ensures { (result ≡ false) ↔ IfSome asked.now (λ line. IsOfStore ids line) }
{
    match asked {
        Some(Line::Clean { page }) => 8 * u32::from(*page) >= ids,
        _ => false,
    }
}

/// What the line of this number asks, where it is within the limits and in the grammar, and a store with so many ids has the
/// page that it names.
pub fn accepted(ids: u32, number: u32, line: &[u8]) -> Option<Line>
    ensures value { MatchOption result (IsRefused ids number line.now)
        (λ asked. IsAccepted ids number line.now × (meaning_of line.now ≡ Some asked)) }
    ensures in_range { IfSome result IsLineInRange }
    ensures of_store { IfSome result (λ asked. IsOfStore ids asked) }
{
    if line.len() > MAX_LINE || number > MAX_LINES {
        return None;
    }
    let asked = meaning_of(line);
    if is_beyond_store(ids, &asked) {
        return None;
    }
    asked
}
