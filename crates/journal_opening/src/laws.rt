//! What holds of stores that are made.
ghost use Rattle.journal_opening.specs.Making.{FreshStoreLaw, CutSuperLaw};

/// A fresh store opens to the root alone.
pub fn fresh_stores_open()
    ensures { FreshStoreLaw }
{}

/// Where a store loses bytes at the end of its super area, it opens to what it opened to before, or there is no store.
pub fn cut_stores_open_alike()
    ensures { CutSuperLaw }
{}
