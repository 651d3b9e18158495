//! The frames of pages.
ghost use Rattle.std.specs.Prelude.{◌≡◌, length, IfOk};
ghost use Rattle.core_store.specs.Opening.{ArePages, stored_in};
ghost use Rattle.log_replay.specs.Inside.{cells_of_pages, AreStorePages};

use cell_page::Page;
use core_store::Frame;
use plain_model::Memory;
use std::alloc::Global;

/// A frame for each page, in order.
pub(crate) fn frames_of<const SLOTS: usize>(
    alloc: Global,
    pages: &[Page<SLOTS>],
) -> Result<Vec<Frame<SLOTS>>, Memory>
    requires { AreStorePages pages.now }
    ensures count { IfOk result (λ frames. length frames.items ≡ length pages.now) }
    ensures pages { IfOk result (λ frames. ArePages frames.items) }
    ensures cells { IfOk result (λ frames. stored_in frames.items ≡ cells_of_pages pages.now) }
{
    let mut frames = Vec::with_capacity(alloc, pages.len())?;
    for page in pages {
        frames.push(Frame { page: *page })?;
    }
    Ok(frames)
}
