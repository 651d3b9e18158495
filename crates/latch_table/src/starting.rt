//! A table whose first hold has all words.

ghost use Rattle.std.specs.Prelude.{◌≡◌, ℕ, ◌+◌, ◌<◌, ◌≤◌, ◌^◌, [], length, replicate, slice_get, slice_set, Some, IfOk};
ghost use Rattle.latch_table.specs.declared.content.Content.TheVariants.{Away};
ghost use Rattle.latch_table.specs.Views.{first_view, all_claimed};

use crate::chronicle::Chronicle;
use crate::content::Content;
use crate::hold::Hold;
use crate::packing::push_within;
use crate::rule::Start;
use crate::table::Latches;
use atomic_table::Table;
use std::alloc::{AllocError, Global};
use std::snapshot::Snapshot;

/// The words of a table of so many pages, all of which the first hold has.
fn words_of(alloc: Global, pages: usize) -> Result<Vec<u64>, AllocError>
    requires { pages < 2 ^ 16 }
    ensures { IfOk result (λ words. words.items ≡ slice_set (replicate (pages + 2) 1) (pages + 1) 0) }
{
    let mut words = Vec::from_elem(alloc, 1u64, pages + 2)?;
    words[pages + 1] = 0;
    Ok(words)
}

/// So many places with nothing in them.
fn away<J, F>(alloc: Global, count: usize) -> Result<Vec<Content<J, F>>, AllocError>
    ensures { IfOk result (λ slots. slots.items ≡ replicate count Away) }
{
    let mut slots = Vec::with_capacity(alloc, count)?;
    'slots: for _ in 0..count {
        push_within(&mut slots, Content::Away);
    }
    Ok(slots)
}

impl<F: Drop, J: Chronicle<F> + Drop> Latches<J, F> {
    /// A table over this chronicle and the frame of each page, all of which the first hold has in hand: it has all words. That
    /// hold is the main one and has the name 0.
    pub fn new_in_hand(
        alloc: Global,
        chronicle: &J,
        frames: &Vec<F>,
    ) -> Result<(Latches<J, F>, Hold<J, F>), AllocError>
        requires some { 0 < length frames.now.items }
        requires few { length frames.now.items < 2 ^ 16 }
        requires empty { J.account.entries chronicle.now ≡ [] }
        requires agree { (k : ℕ) (f : F) → slice_get frames.now.items k ≡ Some f → f ≡ J.account.frame (J.account.fixed chronicle.now) [] k }
        ensures ok { IfOk result (λ r. (r.0.pages ≡ length frames.now.items) × (r.1.table ≡ r.0.table) × (r.1.view ≡ all_claimed (first_view (J.account.fixed chronicle.now)) frames.now.items (J.account.entries chronicle.now) (J.account.marks chronicle.now) (J.account.sizes chronicle.now))) }
        ensures sized { IfOk result (λ r. r.0.table.slots ≡ r.0.pages + 1) }
        ensures began { IfOk result (λ r. r.0.began ≡ chronicle.now) }
    {
        let start = Start {
            chronicle: Snapshot::of(chronicle),
            frames: Snapshot::of(frames),
            held: true,
        };
        let pages = frames.len();
        let words = words_of(alloc, pages)?;
        let slots = away(alloc, pages + 1)?;
        let room = Vec::with_capacity(alloc, pages)?;
        match Table::new(alloc, words.as_slice(), slots, &start) {
            Ok((table, seat)) => {
                let latches = Latches {
                    table,
                    pages: pages as u16,
                    room,
                };
                let hold = Hold {
                    number: 1,
                    main: true,
                    made: 1,
                    seat,
                };
                Ok((latches, hold))
            }
            Err(_) => Err(AllocError),
        }
    }
}
