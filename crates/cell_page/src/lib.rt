//! Cells and pages of a store, and the bytes that spell a page.
//!
//! A page is eight cells, one after another. Page p, counted from 0, has the ids 8p + 1 to 8p + 8. A cell has six slots
//! and takes 64 bytes, or fourteen slots and 128 bytes. Whole numbers have their high byte first.
//!
//! | Offset in the cell | Bytes | Field |
//! |---|---|---|
//! | 0 | 1 | state: 0 free, 1 live |
//! | 1 | 1 | target bit: 0 or 1 |
//! | 2 | 2 | pointer bits: bit i, of value 2^i, belongs to slot i; the bits of no slot are 0 |
//! | 4 | 4 | id, that of the cell's place |
//! | 8 | 4 | strong count |
//! | 12 | 4 | weak count |
//! | 16 | 8 | payload |
//! | 24 | 4 for each slot | slots, each 0 or an id |
//! | 48, or 80 at fourteen slots | the rest | zero |
//!
//! In a free cell all bytes but those of the id are 0. In a live cell the pointer bit of a null slot is 0.
#![tactic(auto)]

mod bytes;
mod cell;
mod decode;
mod encode;
mod laws;
mod layout;
mod page;

pub use cell::{Cell, Lost, Seen};
pub use decode::BadCell;
pub use laws::{first_numbers, spelled_once};
pub use layout::{CELLS_OF_PAGE, ROOT, first_id, page_of};
pub use page::Page;
