//! Pages of six slots as pages of fourteen.
ghost use Rattle.std.specs.Prelude.{◌≡◌, length};
ghost use Rattle.cell_page.specs.Format.{IsPage, AreTyped};
ghost use Rattle.store_migration.specs.Wider.{wide_cell, wide_page};

use cell_page::{Cell, Page};

/// The cell with eight null slots after its own.
fn wide_cell(cell: &Cell<6>) -> Cell<14>
    requires { length cell.now.slots ≡ 6 }
    ensures { result ≡ wide_cell cell.now }
{
    let mut slots = [0; 14];
    slots[..6].copy_from_slice(&cell.slots);
    Cell {
        live: cell.live,
        bit: cell.bit,
        bits: cell.bits,
        id: cell.id,
        strong: cell.strong,
        weak: cell.weak,
        payload: cell.payload,
        slots,
    }
}

/// The page of this number with eight null slots after the own ones of each cell.
pub(crate) fn wide_page(number: u16, page: &Page<6>) -> Page<14>
    requires rules { IsPage number page.now }
    requires typed { AreTyped page.now }
    ensures { result ≡ wide_page page.now }
{
    let mut wide = Page::<14>::fresh(number);
    for cell in page.cells() {
        wide.put_cell(wide_cell(cell));
    }
    wide
}
