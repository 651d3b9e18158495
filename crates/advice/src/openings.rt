//! What it means that a store is not opened.
use crate::refusal::Log;

/// What an object breaks that breaks this rule of the store.
pub(crate) fn broken_rule(rule: u64) -> &'static str {
    match rule {
        1 => "the root is not stored",
        2 => "one of its slots names an object that is not stored",
        3 => "its counts are not those of the pointers that lead to it",
        4 => "strong pointers lead from it back to it",
        5 => "a write of a transaction that had not ended can't be undone",
        _ => "it breaks a rule of the store",
    }
}

/// The file of a log.
fn file_of(log: Log) -> &'static str {
    match log {
        Log::A => "brahma.loga",
        Log::B => "brahma.logb",
    }
}

/// Says how to go on from damaged files.
fn say_copy<P: Eprint>(err: &P) {
    let _ = eprintln!(err;
        "brahma: the files were left as they are; lay a copy of all four back (docs/MANUAL.md, Backup)"
    );
}

/// Says that the files hold no store.
pub(crate) fn explain_no_store<P: Eprint>(err: &P) {
    let _ = eprintln!(err;
        "brahma: the files of this folder hold no store: no init was done here, or one was cut off"
    );
    let _ = eprintln!(err;
        "brahma: `init N` makes a store of N pages, unless a copy is to be laid back"
    );
}

/// Says that the program doesn't know the version of the files' format.
pub(crate) fn explain_version<P: Eprint>(err: &P, version: u64) {
    let _ = eprintln!(err;
        "brahma: the store has version {version} of the format, which this program does not open; nothing was changed"
    );
    let _ = eprintln!(err;
        "brahma: use the program of that version; `help` lists whether this one brings a store to its own"
    );
}

/// Says that a page is damaged.
pub(crate) fn explain_page<P: Eprint>(err: &P, page: u64, at: u64) {
    let _ = eprintln!(err;
        "brahma: brahma.pages is damaged: byte {at} of page {page} breaks the format (docs/FORMATS.md)"
    );
    say_copy(err);
}

/// Says that a log is damaged.
pub(crate) fn explain_log<P: Eprint>(err: &P, log: Log, at: u64) {
    let file = file_of(log);
    let _ = eprintln!(err;
        "brahma: {file} is damaged: its bytes from {at} on break the format (docs/FORMATS.md)"
    );
    say_copy(err);
}

/// Says that an object breaks a rule.
pub(crate) fn explain_object<P: Eprint>(err: &P, id: u64, rule: u64) {
    let broken = broken_rule(rule);
    let _ = eprintln!(err;
        "brahma: the store is damaged at object {id}: {broken} (docs/FORMATS.md, rule {rule})"
    );
    say_copy(err);
}

/// Says that an object breaks the map that the store is to keep.
pub(crate) fn explain_no_map<P: Eprint>(err: &P, id: u64) {
    let _ = eprintln!(err;
        "brahma: the store keeps no map: slot 13 of the root leads to objects that are none, and object {id} is the first that breaks it"
    );
    let _ = eprintln!(err;
        "brahma: no line was done; all other commands open the store, and docs/EMBEDDING.md says which objects make a map"
    );
}
