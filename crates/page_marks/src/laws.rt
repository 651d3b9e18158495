//! What holds of marks alone.
ghost use Rattle.page_marks.specs.Marks.{FirstMarksLaw, NextMarksLaw};

/// Marks that were changed with each record of a log are those of its records.
pub fn marks_follow_records()
    ensures none { FirstMarksLaw }
    ensures more { NextMarksLaw }
{}
