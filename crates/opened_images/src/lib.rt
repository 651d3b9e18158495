//! What a store opens to, from the bytes of its four areas: the cells that it goes on with, or why it is refused.
#![tactic(auto)]

ghost use Rattle.opened_images.specs.Laws.{OneBodyLaw, OneLogLaw, UndamagedLaw, OnePlaceLaw, OneOutcomeLaw, NoneWithoutLaw, OpenedCellsLaw};
ghost use Rattle.opened_images.specs.GoesOn.{GoesOnLaw};
ghost use Rattle.opened_images.specs.WithImages.{MakesCellsLaw, GoesOnWithImagesLaw};
ghost use Rattle.opened_images.specs.Marks.{UnchangedLaw, CurrentLaw};
ghost use Rattle.opened_images.specs.Checkpoints.{AnyBytesLaw, CopyLaw, SpelledLaw, BeginsAnewLaw, GoOnFromLaw, BehindCheckpointLaw};

/// A body has one list of records, and a log area one list of batches of them. No log is damaged, and an area is
/// damaged at one place at most.
pub fn logs_have_one_reading()
    ensures body { OneBodyLaw }
    ensures log { OneLogLaw }
    ensures undamaged { UndamagedLaw }
    ensures place { OnePlaceLaw }
{}

/// An image opens to one outcome at most, and none is without an outcome.
pub fn images_open_to_one_outcome()
    ensures one { OneOutcomeLaw }
    ensures some { NoneWithoutLaw }
{}

/// The cells that an image opens to are consistent.
pub fn opened_cells_are_consistent()
    ensures { OpenedCellsLaw }
{}

/// Where a log that has ended goes on with the records of events, the image opens to the cells that these make of those
/// that it opened to before.
pub fn logs_go_on()
    ensures { GoesOnLaw }
{}

/// So does a log that goes on with images of pages too, each as the cells are there, whatever stands in place of a page that has
/// one.
pub fn logs_go_on_with_images()
    ensures cells { MakesCellsLaw }
    ensures opens { GoesOnWithImagesLaw }
{}

/// A page that no record of a log concerns stands in place as the cells are after the log. Where the last record that concerns a
/// page is an image of it, that image is the page of these cells.
pub fn marks_tell_of_pages()
    ensures unchanged { UnchangedLaw }
    ensures current { CurrentLaw }
{}

/// A page that has an image in the log may have any bytes in place, and its bytes stand in the log. A page that is spelled in
/// place stands there.
pub fn pages_are_written_behind_images()
    ensures any_bytes { AnyBytesLaw }
    ensures copy { CopyLaw }
    ensures stands { SpelledLaw }
{}

/// Where all pages stand in place and no transaction is active, the log may begin anew with its first batch alone. What follows
/// opens to the same cells as it would after the old log.
pub fn logs_begin_anew()
    ensures anew { BeginsAnewLaw }
    ensures from { GoOnFromLaw }
    ensures opens { BehindCheckpointLaw }
{}
