//! What it means that no store is made of a stream.
use crate::openings::broken_rule;

/// Says how to go on without a store.
fn say_again<P: Eprint>(err: &P) {
    let _ = eprintln!(err;
        "brahma: the files were left as they are; make a stream anew: first what `backup` writes, then what `ship` does"
    );
}

/// Says that a stream is damaged, or that its pages are not all there.
pub(crate) fn explain_stream<P: Eprint>(err: &P, at: u64) {
    let _ = eprintln!(err;
        "brahma: standard input is no stream: from byte {at} on it breaks the format, or it ends there and lacks pages (docs/FORMATS.md)"
    );
    say_again(err);
}

/// Says that an object of the store that a stream makes breaks a rule.
pub(crate) fn explain_made<P: Eprint>(err: &P, id: u64, rule: u64) {
    let broken = broken_rule(rule);
    let _ = eprintln!(err;
        "brahma: the store that the stream makes is damaged at object {id}: {broken} (docs/FORMATS.md, rule {rule})"
    );
    say_again(err);
}
