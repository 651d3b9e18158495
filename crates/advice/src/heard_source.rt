//! A source of which is known what was read last, and how much.
ghost use Rattle.std.specs.Prelude.{◌≡◌};

use crate::latest::Latest;
use crate::progress::{MEBIBYTE, passed};
use outside_io::{ReadFailed, Source};
use std::marker::Model;

/// After how many bytes that were read a line is told.
const READ_OF_A_LINE: u64 = 64 * MEBIBYTE;

/// Who hears of what is read.
#[derive(Drop)]
pub enum Listener<P: Eprint + Drop> {
    /// Nobody.
    Nobody,
    /// Who types the input at this terminal: a prompt asks for each piece.
    Typist(P),
    /// Who waits at this terminal for the end of a long stream: a line comes for each 64 MiB that were read.
    Onlooker(P),
}

/// What a source gives.
#[derive(Clone, Copy, PartialEq, Eq, Debug)]
pub enum Input {
    /// Lines. What was read last is kept, so that a refused one can be shown.
    Lines,
    /// A stream of bytes. Nothing is kept of it.
    Stream,
}

/// A source of which the last bytes that were read are kept, where it gives lines, and of which a listener hears. To contracts it is
/// the source under it.
#[derive(Drop)]
pub struct HeardSource<R: Source + Drop, P: Eprint + Drop> {
    source: R,
    input: Input,
    latest: Latest,
    read: u64,
    listener: Listener<P>,
}

impl<R: Source + Drop, P: Eprint + Drop> Model for HeardSource<R, P> {
    ghost Value = { R };

    ghost view = { λ s. s.source };
}

impl<R: Source + Drop, P: Eprint + Drop> HeardSource<R, P> {
    /// This source, which gives such input, and of which the listener hears.
    pub fn over(source: R, input: Input, listener: Listener<P>) -> HeardSource<R, P>
        ensures { result ≡ source }
    {
        HeardSource {
            source,
            input,
            latest: Latest::new(),
            read: 0,
            listener,
        }
    }

    /// What was read last, where lines are read.
    pub fn latest(&self) -> &Latest {
        &self.latest
    }
}

/// Shows the prompt to who types the input.
fn ask<P: Eprint + Drop>(listener: &Listener<P>) {
    if let Listener::Typist(terminal) = listener {
        let _ = eprint!(terminal; "brahma> ");
    }
}

/// Leaves the line of the prompt, where the input ends.
fn end<P: Eprint + Drop>(listener: &Listener<P>) {
    if let Listener::Typist(terminal) = listener {
        let _ = eprintln!(terminal);
    }
}

/// Counts bytes that were read, and tells an onlooker where their number gets a line.
fn count_read<P: Eprint + Drop>(read: &mut u64, more: u64, listener: &Listener<P>) {
    if let (Some(now), Listener::Onlooker(terminal)) = (
        passed(read, more, READ_OF_A_LINE),
        listener,
    ) {
        let mebibytes = now / MEBIBYTE;
        let _ = eprintln!(terminal; "brahma: {mebibytes} MiB of the stream read");
    }
}

impl<R: Source + Drop, P: Eprint + Drop> Source for HeardSource<R, P> {
    ghost left = { R.left };

    ghost faults = { R.faults };

    fn read(&mut self, into: &mut [u8]) -> Result<usize, ReadFailed> {
        ask(&self.listener);
        let count = self.source.read(into)?;
        if count == 0 {
            end(&self.listener);
        }
        match self.input {
            Input::Lines => self.latest.add(&into[..count]),
            Input::Stream => {}
        }
        count_read(&mut self.read, count as u64, &self.listener);
        Ok(count)
    }
}
