//! Images of all pages of a replayed log.
ghost use Rattle.std.specs.Prelude.{◌≡◌, ◌+◌, ◌*◌, ◌<◌, length, IfOk};
ghost use Rattle.cell_page.specs.Format.{AreTyped, page_size};
ghost use Rattle.cell_page.specs.Stored.{HoldsPage};
ghost use Rattle.store_migration.specs.Wider.{all_wider};
ghost use Rattle.store_migration.specs.ImagedLogs.{AreImagesOf};

use crate::pages::wide_page;
use cell_page::{CELLS_OF_PAGE, Page, first_id};
use log_record::Record;
use log_replay::Replay;
use std::alloc::{AllocError, Global};

/// The page of this number of a replayed log, with eight null slots after the own ones of each cell.
fn wide_page_of(replay: &Replay<6>, number: u16) -> Page<14>
    requires { number < length replay.now.skips }
    ensures typed { AreTyped result }
    ensures holds { HoldsPage (all_wider 8 replay.now.cells) number result }
{
    let page = replay.page(number);
    // That the page keeps its rules: this call hands the fact out.
    let _first = page.cell(first_id(number));
    wide_page(number, page)
}

/// The images of all pages of a replayed log, as bytes, with eight null slots after the own ones of each cell.
pub(crate) fn wide_images(alloc: Global, replay: &Replay<6>) -> Result<Vec<u8>, AllocError>
    ensures images { IfOk result (λ bytes. AreImagesOf 14 (length replay.now.skips) (all_wider 8 replay.now.cells) bytes.items) }
    ensures size { IfOk result (λ bytes. length bytes.items ≡ (page_size 14 + 3) * length replay.now.skips) }
{
    let pages = (replay.last_id() as usize / CELLS_OF_PAGE) as u16;
    let mut bytes = Vec::new(alloc);
    for number in 0..pages {
        let image = Record::<14>::Image {
            page: number,
            cells: wide_page_of(replay, number),
        };
        image.write(&mut bytes)?;
    }
    Ok(bytes)
}
