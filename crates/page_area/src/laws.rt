//! What holds of pages in place alone.
ghost use Rattle.page_area.specs.InPlace.{OtherPagesLaw, ReadBackLaw};

/// A write of pages, also one that was cut off, leaves all other pages.
pub fn other_pages_stay()
    ensures { OtherPagesLaw }
{}

/// A page that was written in place is read there.
pub fn written_pages_are_read()
    ensures { ReadBackLaw }
{}
