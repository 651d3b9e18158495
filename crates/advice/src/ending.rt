//! What the end of a command means, and how to go on.
use crate::disk_failures::{explain_disk, explain_memory};
use crate::latest::Latest;
use crate::openings::{
    explain_log, explain_no_map, explain_no_store, explain_object, explain_page, explain_version,
};
use crate::refusal::Refusal;
use crate::refused_line::explain_line;
use crate::streams::{explain_made, explain_stream};
use crate::watched_disk::FailedAct;
use std::io;

/// Which command ends.
#[derive(Clone, Copy)]
pub enum Doing {
    /// `init`.
    Init,
    /// `replay`.
    Replay,
    /// `run`.
    Run,
    /// `standby`.
    Standby,
    /// `check`.
    Check,
    /// `map`.
    Map,
    /// Another one.
    Other,
}

/// What is known at the end of a command that did not do all.
#[derive(Drop)]
pub struct Known<'a> {
    /// Which command it is.
    pub doing: Doing,
    /// What its last line refuses. There is none where the output could not be written.
    pub refusal: Option<Refusal>,
    /// What was read last of the script.
    pub latest: &'a Latest,
    /// How many pages the store has, where one was opened.
    pub pages: Option<usize>,
    /// The call that the disk failed first.
    pub failed: Option<FailedAct>,
    /// What the operating system answered then.
    pub reason: Option<io::Error>,
}

/// Says that words are no command, by the first of them.
pub fn explain_usage<P: Eprint>(err: &P, word: &str) {
    let _ = match word {
        "init" => eprintln!(err;
            "brahma: init takes one number, that of the store's pages: 1 to 1024"
        ),
        "gen" => eprintln!(err;
            "brahma: gen takes --seed S, below 2^64, --clients C, 1 to 64, and --txns T, 0 to 1000, each once; C times T is at most 2000"
        ),
        "replay" | "run" | "audit" | "standby" | "check" | "map" => eprintln!(err;
            "brahma: {word} takes no further words"
        ),
        _ => eprintln!(err;
            "brahma: these words are no command, or one of them is outside its range"
        ),
    };
    let _ = eprintln!(err;
        "brahma: `./brahma help` lists the commands, and docs/MANUAL.md says what they do"
    );
}

/// Says that the input could not be read.
fn explain_read<P: Eprint>(err: &P, doing: Doing) {
    let _ = eprintln!(err;
        "brahma: standard input could not be read: it is closed, a folder, or on a device that failed"
    );
    let _ = match doing {
        Doing::Run => eprintln!(err; "brahma: nothing of the script was done"),
        Doing::Standby | Doing::Check => {
            eprintln!(err; "brahma: the files were left as they are")
        }
        Doing::Map => eprintln!(err;
            "brahma: the whole lines before that were done, and each is committed; give the rest"
        ),
        _ => eprintln!(err;
            "brahma: the whole lines before that were done; the next opening undoes what they left open. Go on from the first open begin"
        ),
    };
}

/// Says that the history is full.
fn explain_trace<P: Eprint>(err: &P) {
    let _ = eprintln!(err;
        "brahma: the history of this opening is full: 1048576 entries, with what open transactions may still need"
    );
    let _ = eprintln!(err;
        "brahma: each commit answered ok stays; run again with the rest, since each opening begins a new history"
    );
}

/// Says that the log is full.
fn explain_log_full<P: Eprint>(err: &P, known: &Known<'_>) {
    let _ = eprintln!(err;
        "brahma: the log is full: 1071644672 bytes, with what open transactions may still need"
    );
    let _ = match (known.pages, known.doing) {
        (Some(_), Doing::Map) => eprintln!(err;
            "brahma: each line that was answered stays; `echo turn | ./brahma replay` begins the log anew, and then give the rest"
        ),
        (Some(_), _) => eprintln!(err;
            "brahma: each commit answered ok stays; run again with `turn` as the first line, which begins the log anew, and then the rest"
        ),
        (None, _) => eprintln!(err;
            "brahma: it has no room for the undo of what had not ended, so another program wrote it; lay a copy of all four files back"
        ),
    };
}

/// Says that the output could not be written.
fn explain_write<P: Eprint>(err: &P, doing: Doing) {
    let _ = eprintln!(err;
        "brahma: standard output could not be written, so more may have been done than was printed"
    );
    let _ = match doing {
        Doing::Init | Doing::Standby => eprintln!(err; "brahma: the store was made"),
        Doing::Check => eprintln!(err; "brahma: check the stream again"),
        _ => eprintln!(err; "brahma: open the store, and look before a line is given once more"),
    };
}

/// Says what the end of a command means that did not do all, and how to go on. What the words were is said by [`explain_usage`].
pub fn explain<P: Eprint>(err: &P, known: &Known<'_>) {
    match known.refusal {
        None => explain_write(err, known.doing),
        Some(Refusal::Usage) => {}
        Some(Refusal::Line(number)) => explain_line(err, number, known),
        Some(Refusal::Read) => explain_read(err, known.doing),
        Some(Refusal::Disk) => explain_disk(err, known),
        Some(Refusal::NoStore) => explain_no_store(err),
        Some(Refusal::Version(version)) => explain_version(err, version),
        Some(Refusal::Page { page, at }) => explain_page(err, page, at),
        Some(Refusal::Log { log, at }) => explain_log(err, log, at),
        Some(Refusal::Object { id, rule }) => match known.doing {
            Doing::Standby | Doing::Check => explain_made(err, id, rule),
            _ => explain_object(err, id, rule),
        },
        Some(Refusal::NoMap { id }) => explain_no_map(err, id),
        Some(Refusal::Stream { at }) => explain_stream(err, at),
        Some(Refusal::Memory) => explain_memory(err),
        Some(Refusal::Trace) => explain_trace(err),
        Some(Refusal::LogFull) => explain_log_full(err, known),
    }
}
