//! Laws of streams, and of stores that are made of them.
ghost use Rattle.standby.specs.Laws.{UndamagedLaw, CutStoreLaw, MadeStoreLaw};

/// Bytes that are read to their end, and whose records fit, show no fault. So a fault is answered exactly where there is one.
pub fn streams_are_whole_or_damaged()
    ensures { UndamagedLaw }
{}

/// A store that is made with pages opens to their cells. Where its super area loses bytes, it opens to the same, or there is none.
pub fn made_stores_open()
    ensures made { MadeStoreLaw }
    ensures cut { CutStoreLaw }
{}
