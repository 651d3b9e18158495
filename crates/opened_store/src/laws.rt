//! What holds of stores that open, and of those that don't.
ghost use Rattle.opened_store.specs.Longer.{LongerPagesLaw};
ghost use Rattle.opened_store.specs.Unopened.{RefusedLaw};

/// A store opens to the same cells with any bytes after the end of its pages area. So that area may be lengthened.
pub fn pages_may_be_longer()
    ensures { LongerPagesLaw }
{}

/// A store that opens to a refusal does not open: there are no cells that it opens to too.
pub fn refused_stores_do_not_open()
    ensures { RefusedLaw }
{}
