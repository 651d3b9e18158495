//! Laws of the view of a log.
ghost use Rattle.log_printing.specs.Laws.{UndamagedLaw, OnePlaceLaw, OneTextLaw};

/// An area is a log, which has one text, or it is damaged at one place. So a place is answered exactly where an area is damaged.
pub fn logs_have_one_text()
    ensures undamaged { UndamagedLaw }
    ensures place { OnePlaceLaw }
    ensures text { OneTextLaw }
{}
