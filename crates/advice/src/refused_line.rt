//! What a refused line means.
use crate::ending::{Doing, Known};
use crate::line_faults::fault_in;
use crate::line_shapes::Expected;
use crate::line_texts::{marks, shown};
use plain_model::Call;
use script_lines::{Line, SLOTS, accepted};

/// The most bytes that a line may have, without its end.
const MAX_LINE: usize = 128;

/// The most lines that a script may have.
const MAX_LINES: u64 = 65_536;

/// How many bytes of a line are shown that is too long.
const SHOWN_OF_LONG: usize = 60;

/// As many ids as a store has at most.
const MOST_IDS: u32 = 8192;

/// Says what is expected at a place of a line.
fn say_expected<P: Eprint>(err: &P, expected: Expected) {
    let _ = match expected {
        Expected::Party => eprintln!(err;
            "brahma: a line begins with a client, 1 to 64, or with gc, clean, turn or crash"
        ),
        Expected::Verb => eprintln!(err;
            "brahma: a client's verbs are begin, read, make, store, get, set, release, commit, abort and undo"
        ),
        Expected::Register => eprintln!(err; "brahma: here stands a register, 0 to 7"),
        Expected::Slot => {
            let last = SLOTS - 1;
            eprintln!(err; "brahma: here stands a slot, 0 to {last}")
        }
        Expected::Source => eprintln!(err; "brahma: here stands a register, 0 to 7, or - for null"),
        Expected::Payload => eprintln!(err;
            "brahma: here stands a payload, a number below 2^64, of 1 to 20 digits"
        ),
        Expected::Page => eprintln!(err; "brahma: here stands a page of the store, counted from 0"),
        Expected::Pick => eprintln!(err; "brahma: here stands a pick, a number below 2^32"),
        Expected::Steps => eprintln!(err; "brahma: behind gc stands step or all"),
        Expected::Nothing => eprintln!(err; "brahma: here the line should end"),
    };
}

/// Shows a line that is not in the grammar, with marks under its first wrong field, and says what is expected there.
fn say_fault<P: Eprint>(err: &P, number: u64, line: &[u8], index: usize, expected: Expected) {
    let text = shown(line);
    let under = marks(line, index);
    let (text, under) = (text.as_str(), under.as_str());
    let _ = eprintln!(err; "brahma: line {number} is outside the grammar of scripts:");
    let _ = eprintln!(err; "brahma:     {text}");
    let _ = eprintln!(err; "brahma:     {under}");
    say_expected(err, expected);
}

/// Says which page the store has last.
fn say_no_page<P: Eprint>(err: &P, number: u64, page: u16, pages: Option<usize>) {
    let _ = match pages {
        Some(pages) => {
            eprintln!(err;
                "brahma: line {number}: there is no page {page}; the store has {pages} pages, counted from 0"
            )
        }
        None => eprintln!(err; "brahma: line {number}: the store has no page {page}"),
    };
}

/// Says why a line of the grammar is refused all the same.
fn say_out_of_place<P: Eprint>(err: &P, number: u64, line: &[u8], known: &Known<'_>) {
    let text = shown(line);
    let text = text.as_str();
    match accepted(MOST_IDS, 1, line) {
        Some(Line::Clean { page }) if matches!(known.doing, Doing::Replay) => {
            say_no_page(err, number, page, known.pages);
        }
        Some(
            Line::Ask {
                client,
                call: Call::Begin,
            },
        ) => {
            let _ = eprintln!(err;
                "brahma: line {number}, `{text}`: client {client} is in a transaction already"
            );
            let _ = eprintln!(err;
                "brahma: in a run a begin stands first, or behind a commit or an abort of its client"
            );
        }
        Some(Line::Ask { client, .. }) | Some(Line::Abort { client }) => {
            let _ = eprintln!(err;
                "brahma: line {number}, `{text}`: client {client} is in no transaction"
            );
            let _ = eprintln!(err;
                "brahma: in a run a client's first line is begin, and so is the one behind a commit or an abort"
            );
        }
        _ => {
            let _ = eprintln!(err;
                "brahma: line {number}, `{text}`: a run has lines from `P begin` to `P abort` alone"
            );
        }
    }
}

/// Shows a line that asks nothing of a map, and says which lines do.
fn say_no_map_line<P: Eprint>(err: &P, number: u64, line: &[u8]) {
    let text = shown(line);
    let text = text.as_str();
    let _ = eprintln!(err; "brahma: line {number}, `{text}`, asks nothing of a map");
    let _ = eprintln!(err;
        "brahma: a line is put K V, get K, del K, list or crash K; numbers are below 2^64, that of crash below 2^32"
    );
}

/// Says that a line is too long, with its front.
fn say_too_long<P: Eprint>(err: &P, number: u64, line: &[u8]) {
    let front = shown(line.get(..SHOWN_OF_LONG).unwrap_or(line));
    let front = front.as_str();
    let _ = eprintln!(err;
        "brahma: line {number} has more than {MAX_LINE} bytes, comments count too: {front}..."
    );
}

/// Says why this line was refused.
fn say_why<P: Eprint>(err: &P, number: u64, line: &[u8], known: &Known<'_>) {
    if number > MAX_LINES {
        let _ = eprintln!(err;
            "brahma: a script has at most {MAX_LINES} lines, empty ones and comments too"
        );
        return;
    }
    if line.len() > MAX_LINE {
        say_too_long(err, number, line);
        return;
    }
    if matches!(known.doing, Doing::Map) {
        say_no_map_line(err, number, line);
        return;
    }
    match fault_in(line) {
        Some(fault) => say_fault(err, number, line, fault.index, fault.expected),
        None => say_out_of_place(err, number, line, known),
    }
}

/// Says why the line of this number was refused, and how to go on.
pub(crate) fn explain_line<P: Eprint>(err: &P, number: u64, known: &Known<'_>) {
    if let Some(line) = known.latest.line(number) {
        say_why(err, number, line, known);
    }
    let _ = match known.doing {
        Doing::Run => eprintln!(err;
            "brahma: nothing of the script was done; mend the line, and run it again"
        ),
        Doing::Map => eprintln!(err;
            "brahma: the lines before it were done, and each is committed; mend it, and go on with it"
        ),
        _ => {
            eprintln!(err;
                "brahma: the lines before it were done; the next opening undoes what they left open. Mend it, and go on from the first open begin"
            )
        }
    };
}
