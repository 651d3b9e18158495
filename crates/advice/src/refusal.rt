//! Refusals, as their printed lines name them.
use script_lines::seed_of;

/// One of the two log areas.
#[derive(Clone, Copy)]
pub enum Log {
    A,
    B,
}

/// What the last line of a command names as refused.
#[derive(Clone, Copy)]
pub enum Refusal {
    /// `usage`: the words are no command.
    Usage,
    /// `refused: line N`.
    Line(u64),
    /// `refused: read`.
    Read,
    /// `refused: disk`.
    Disk,
    /// `refused: no store`.
    NoStore,
    /// `refused: version B`.
    Version(u64),
    /// `refused: page P at O`.
    Page { page: u64, at: u64 },
    /// `refused: log A at O`, or of log B.
    Log { log: Log, at: u64 },
    /// `refused: object I rule R`.
    Object { id: u64, rule: u64 },
    /// `refused: object I map`.
    NoMap { id: u64 },
    /// `refused: stream at O`.
    Stream { at: u64 },
    /// `refused: memory`.
    Memory,
    /// `refused: trace`.
    Trace,
    /// `refused: log`.
    LogFull,
}

/// The first word of a printed line, and the rest. A word ends at a space, at the line feed or with the bytes.
fn next_word(bytes: &[u8]) -> (&[u8], &[u8]) {
    match bytes.iter().position(|b| *b == b' ' || *b == b'\n') {
        Some(end) => (&bytes[..end], &bytes[end + 1..]),
        None => (bytes, &bytes[bytes.len()..]),
    }
}

/// The number after the word `at` or `rule`.
fn number_behind(word: &[u8], bytes: &[u8]) -> Option<u64> {
    let (first, rest) = next_word(bytes);
    if first != word {
        return None;
    }
    seed_of(next_word(rest).0)
}

/// The log that a word names.
fn log_of(word: &[u8]) -> Option<Log> {
    match word {
        b"A" => Some(Log::A),
        b"B" => Some(Log::B),
        _ => None,
    }
}

/// What is refused of an object, by the words after its id.
fn of_object(id: u64, behind: &[u8]) -> Option<Refusal> {
    match next_word(behind).0 {
        b"map" => Some(Refusal::NoMap { id }),
        _ => Some(Refusal::Object {
            id,
            rule: number_behind(b"rule", behind)?,
        }),
    }
}

/// What is refused, by the words after `refused: `, where numbers stand among them.
fn with_numbers(words: &[u8]) -> Option<Refusal> {
    let (kind, behind) = next_word(words);
    let (what, rest) = next_word(behind);
    match kind {
        b"line" => Some(Refusal::Line(seed_of(what)?)),
        b"version" => Some(Refusal::Version(seed_of(what)?)),
        b"page" => Some(Refusal::Page {
            page: seed_of(what)?,
            at: number_behind(b"at", rest)?,
        }),
        b"log" => Some(Refusal::Log {
            log: log_of(what)?,
            at: number_behind(b"at", rest)?,
        }),
        b"object" => of_object(seed_of(what)?, rest),
        b"stream" => Some(Refusal::Stream {
            at: number_behind(b"at", behind)?,
        }),
        _ => None,
    }
}

impl Refusal {
    /// What a printed line refuses, where it is the line of a refusal.
    pub fn of(line: &[u8]) -> Option<Refusal> {
        match line.strip_prefix(b"refused: ".as_slice()) {
            Some(b"read\n") => Some(Refusal::Read),
            Some(b"disk\n") => Some(Refusal::Disk),
            Some(b"no store\n") => Some(Refusal::NoStore),
            Some(b"memory\n") => Some(Refusal::Memory),
            Some(b"trace\n") => Some(Refusal::Trace),
            Some(b"log\n") => Some(Refusal::LogFull),
            Some(words) => with_numbers(words),
            None if line == b"usage\n".as_slice() => Some(Refusal::Usage),
            None => None,
        }
    }
}
