//! Logs that begin with images of all pages: what stands in the pages area is no matter.
ghost use Rattle.store_migration.specs.ImagedLogs.{OpensToImagesLaw};

/// A log of one first batch and one with an image of each page opens to these pages, whatever stands in place.
pub fn logs_of_images_open()
    ensures { OpensToImagesLaw }
{}
