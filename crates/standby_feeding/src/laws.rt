//! Laws of streams that are read from a source.
ghost use Rattle.standby_feeding.specs.Streams.{ShortLaw};

/// A stream that shows no fault and has no end yet is shorter than its pages and a log area may be. So what reads a source up to the
/// end of a stream ends, whatever the source gives.
pub fn streams_end()
    ensures { ShortLaw }
{}
