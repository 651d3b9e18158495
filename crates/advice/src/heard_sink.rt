//! A sink of which is known what it was told of a refusal.
ghost use Rattle.std.specs.Prelude.{◌≡◌};

use crate::refusal::Refusal;
use outside_io::{Sink, WriteFailed};
use std::marker::Model;

/// A sink that hears which refusal was printed last, also where it could not be written. To contracts it is the sink under it.
#[derive(Drop)]
pub struct HeardSink<W: Sink + Drop> {
    sink: W,
    refusal: Option<Refusal>,
}

impl<W: Sink + Drop> Model for HeardSink<W> {
    ghost Value = { W };

    ghost view = { λ s. s.sink };
}

impl<W: Sink + Drop> HeardSink<W> {
    /// This sink, to which nothing was written yet.
    pub fn over(sink: W) -> HeardSink<W>
        ensures { result ≡ sink }
    {
        HeardSink {
            sink,
            refusal: None,
        }
    }

    /// The refusal that was printed last, if there was one.
    pub fn refusal(&self) -> Option<Refusal> {
        self.refusal
    }
}

impl<W: Sink + Drop> Sink for HeardSink<W> {
    ghost written = { W.written };

    ghost faults = { W.faults };

    fn write(&mut self, piece: &[u8]) -> Result<usize, WriteFailed> {
        if let Some(refusal) = Refusal::of(piece) {
            self.refusal = Some(refusal);
        }
        self.sink.write(piece)
    }
}
