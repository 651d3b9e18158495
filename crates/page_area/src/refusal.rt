//! What a page area answers in place of a page.
ghost use Rattle.std.specs.Prelude.{◌≡◌};
ghost use Rattle.page_area.specs.declared.refusal.PageRefusal.TheVariants.{Disk};

use disk_model::DiskFailed;
use thiserror::Error;

/// What a page area answers in place of a page.
#[derive(Clone, Copy, Debug, PartialEq, Eq, Error)]
pub enum PageRefusal {
    /// The disk failed a call. Its count of faults rose.
    #[error("a disk call failed")]
    Disk,
    /// What stands there is no page.
    #[error("the page is damaged at byte {at}")]
    Damaged {
        /// The offset in the page, in bytes, of the first field that breaks the page format. Of a page that the
        /// area cuts off, the number of its bytes that are there.
        at: u32,
    },
}

impl From<DiskFailed> for PageRefusal {
    ghost from_gives = { λ _ refusal. refusal ≡ Disk };

    fn from(_: DiskFailed) -> Self {
        PageRefusal::Disk
    }
}
