//! The pages that a call works on.

ghost use Rattle.std.specs.Prelude.{◌≡◌, ℕ, ◌+◌, ◌^◌, ◌<◌, ◌≤◌, ◌==◌, List, [], ◌∷◌, ◌++◌, length, true, false, not, nat_lt, slice_index_or, slice_set, IfSome, IfNone, is_some};
ghost use Rattle.std.specs.List.{AllByRecursion};
ghost use Rattle.cell_model.specs.Cells.{Cell as StoredCell, same, cell_at, is_live, edit, relink, gains, loses, counted};
ghost use Rattle.cell_page.specs.Format.{IsSlotCount, IsCell, HasId, page_of_id, place_of as place_in_page};
ghost use Rattle.cell_page.specs.Stored.{cell_of};
ghost use Rattle.core_store.specs.Frames.{pages_held, is_held, holds_nothing, are_all_among, AreOnce, Agree, numbered};
ghost use Rattle.core_store.specs.Changes.{has_no_strong};
ghost use Rattle.core_store.specs.Inside.{frames_of_all};
ghost use Rattle.core_store.specs.Slots.{turned};

use crate::frame::Frame;
use cell_page::{Cell, Lost, Page, page_of};
use std::marker::Model;

/// How many pages a call works on at most.
const MOST: usize = 3;

/// A frame that is held, and the number of its page.
#[derive(Clone, Copy)]
pub(crate) struct HeldFrame<const SLOTS: usize> {
    pub(crate) page: u16,
    pub(crate) frame: Frame<SLOTS>,
}

/// The frames that a call works on: up to three of different pages, or those of all pages.
#[derive(Drop)]
pub struct Three<const SLOTS: usize> {
    /// The frames of the pages from 0 on, if they are all held.
    all: Option<Vec<Frame<SLOTS>>>,
    /// Those that were put, of which the first so many are held, after all others.
    frames: [HeldFrame<SLOTS>; MOST],
    count: usize,
}

/// Contracts see the held frames in order, each with the number of its page.
impl<const SLOTS: usize> Model for Three<SLOTS> {
    ghost use Rattle.std.specs.Prelude.{List};
    ghost use Rattle.core_store.specs.declared.three.HeldFrame.{HeldFrame};
    ghost use Rattle.core_store.specs.Inside.{AreThreeInside, held_in};

    ghost Value = { List (HeldFrame SLOTS) };

    ghost view = { λ s. held_in s.all s.frames s.count };

    ghost invariant = { λ s. AreThreeInside s.all s.frames s.count };
}

/// The place of the frame of this page.
fn place_of<const SLOTS: usize>(frames: &[HeldFrame<SLOTS>], page: u16) -> usize
    requires there { is_held frames.now page ≡ true }
    ensures within { result < length frames.now }
    ensures page { (d : HeldFrame SLOTS) → (slice_index_or frames.now result d).page ≡ page }
    ensures first { (k : ℕ) (d : HeldFrame SLOTS) → k < result → ((slice_index_or frames.now k d).page == page) ≡ false }
{
    for (place, held) in frames.iter().enumerate() {
        if held.page == page {
            return place;
        }
    }
    frames.len()
}

/// The frames of all pages, if they are held.
fn all_of<const SLOTS: usize>(all: &Option<Vec<Frame<SLOTS>>>) -> &[Frame<SLOTS>]
    ensures { result.now ≡ frames_of_all all.now }
{
    match all {
        Some(frames) => frames.as_slice(),
        None => &[],
    }
}

/// Puts a cell in the place of the one with the same id, in its page among the frames of all pages.
fn put_in_all<const SLOTS: usize>(all: &mut Option<Vec<Frame<SLOTS>>>, cell: Cell<SLOTS>)
    requires above { (0 < cell.id) × (cell.id < 65536) }
    requires within { page_of_id cell.id < length (frames_of_all all.old) }
    requires ids { (d : Frame SLOTS) → HasId (slice_index_or (frames_of_all all.old) (page_of_id cell.id) d).page cell.id }
    requires rules { IsCell cell.id cell }
    ensures put { (d : Frame SLOTS) → frames_of_all all.new ≡ slice_set (frames_of_all all.old) (page_of_id cell.entry.id) (record { page = slice_set (slice_index_or (frames_of_all all.old) (page_of_id cell.entry.id) d).page (place_in_page cell.entry.id) cell.entry }) }
{
    if let Some(frames) = all {
        frames[page_of(cell.id) as usize].page.put_cell(cell);
    }
}

/// Takes the last of the frames of all pages, with its page.
fn take_of_all<const SLOTS: usize>(
    all: &mut Option<Vec<Frame<SLOTS>>>,
) -> Option<(u16, Frame<SLOTS>)>
    requires { length (frames_of_all all.old) ≤ 65536 }
    ensures last { IfSome result (λ r. (frames_of_all all.old ≡ frames_of_all all.new ++ r.1 ∷ []) × (r.0 ≡ length (frames_of_all all.new))) }
    ensures none { IfNone result ((frames_of_all all.old ≡ []) × (frames_of_all all.new ≡ [])) }
    ensures fewer { length (frames_of_all all.new) ≤ length (frames_of_all all.old) }
{
    let frames = all.as_mut()?;
    let frame = frames.pop()?;
    Some((frames.len() as u16, frame))
}

/// Whether the page of each of these frames, which are those of the pages from 0 on, is among these.
fn are_all_pages_among<const SLOTS: usize>(frames: &[Frame<SLOTS>], pages: &[u16]) -> bool
    requires { length frames.now ≤ 65536 }
    ensures { result ≡ are_all_among (pages_held (numbered 0 frames.now)) pages.now }
{
    for page in 0..frames.len() {
        if !pages.contains(&(page as u16)) {
            return false;
        }
    }
    true
}

/// Whether one of the frames is of this page.
fn is_among<const SLOTS: usize>(frames: &[HeldFrame<SLOTS>], page: u16) -> bool
    ensures { result ≡ is_held frames.now page }
{
    frames.iter().any(
        |held| -> bool
            ensures { result ≡ (held.now.page == page) }
        { held.page == page },
    )
}

/// Whether the page of each frame is among these.
fn are_among<const SLOTS: usize>(frames: &[HeldFrame<SLOTS>], pages: &[u16]) -> bool
    ensures { result ≡ are_all_among (pages_held frames.now) pages.now }
{
    for held in frames {
        if !pages.contains(&held.page) {
            return false;
        }
    }
    true
}

impl<const SLOTS: usize> Three<SLOTS> {
    /// The frames of all pages are held, or none.
    fn with(all: Option<Vec<Frame<SLOTS>>>) -> Three<SLOTS>
        requires size { IsSlotCount SLOTS }
        requires few { length (frames_of_all all) ≤ 65536 }
        ensures { result ≡ numbered 0 (frames_of_all all.entry) }
    {
        let blank = HeldFrame {
            page: 0,
            frame: Frame {
                page: Page::fresh(0),
            },
        };
        Three {
            all,
            frames: [blank; MOST],
            count: 0,
        }
    }

    /// No frame is held.
    pub fn new() -> Three<SLOTS>
        requires { IsSlotCount SLOTS }
        ensures { result ≡ [] }
    {
        Three::with(None)
    }

    /// The frames of all pages from 0 on are held, in order.
    pub fn whole(frames: Vec<Frame<SLOTS>>) -> Three<SLOTS>
        requires size { IsSlotCount SLOTS }
        requires few { length frames.items ≤ 65536 }
        ensures { result ≡ numbered 0 frames.entry.items }
    {
        Three::with(Some(frames))
    }

    /// Whether more than three frames are held, which are then those of all pages from 0 on.
    pub fn is_whole(&self) -> bool
        ensures { result ≡ nat_lt 3 (length self.now) }
    {
        all_of(&self.all).len() > MOST
    }

    /// The frames of all pages from 0 on, where more than three are held; else `None`.
    pub fn all(&self) -> Option<&[Frame<SLOTS>]>
        ensures all { IfSome result (λ frames. self.now ≡ numbered 0 frames.now) }
        ensures some { is_some result ≡ nat_lt 3 (length self.now) }
    {
        let all = all_of(&self.all);
        if all.len() > MOST { Some(all) } else { None }
    }

    /// The frames of all pages from 0 on, where more than three are held; else `None`.
    pub fn into_all(self) -> Option<Vec<Frame<SLOTS>>>
        ensures all { IfSome result (λ frames. self.entry ≡ numbered 0 frames.items) }
        ensures some { is_some result ≡ nat_lt 3 (length self.entry) }
    {
        if self.is_whole() { self.all } else { None }
    }

    /// Lets all frames go.
    pub fn clear(&mut self)
        ensures { self.new ≡ [] }
    {
        self.all = None;
        self.count = 0;
    }

    /// Holds the frame of one page more.
    pub fn put(&mut self, page: u16, frame: &Frame<SLOTS>)
        requires room { length self.old < 3 }
        requires other { is_held self.old page ≡ false }
        ensures { self.new ≡ self.old ++ record { page = page; frame = frame.now } ∷ [] }
    {
        self.frames[self.count] = HeldFrame {
            page,
            frame: *frame,
        };
        self.count += 1;
    }

    /// Puts the frame that was put last into its place among the frames of all pages, and lets it go. Gives its page, and
    /// `None` exactly where none is held.
    pub fn put_back(&mut self, frames: &mut [Frame<SLOTS>]) -> Option<u16>
        requires within { AllByRecursion (λ h. h.page < length frames.old) self.old }
        ensures last { IfSome result (λ page. (frame : Frame SLOTS) × (self.old ≡ self.new ++ record { page = page; frame = frame } ∷ []) × (frames.new ≡ slice_set frames.old page frame)) }
        ensures none { IfNone result ((self.old ≡ []) × (self.new ≡ []) × (frames.new ≡ frames.old)) }
    {
        let (page, frame) = self.take()?;
        frames[page as usize] = frame;
        Some(page)
    }

    /// Lets the frame that was put last go, and gives it with its page; `None` exactly where none is held.
    pub fn take(&mut self) -> Option<(u16, Frame<SLOTS>)>
        ensures last { IfSome result (λ r. self.old ≡ self.new ++ record { page = r.0; frame = r.1 } ∷ []) }
        ensures none { IfNone result ((self.old ≡ []) × (self.new ≡ [])) }
    {
        if self.count == 0 {
            return take_of_all(&mut self.all);
        }
        self.count -= 1;
        let held = &self.frames[self.count];
        Some((held.page, held.frame))
    }

    /// Whether no frame is held.
    pub(crate) fn is_empty(&self) -> bool
        ensures exact { result ≡ holds_nothing self.now }
        ensures once { AreOnce self.now }
    {
        self.count == 0 && all_of(&self.all).is_empty()
    }

    /// Whether the page is held.
    pub(crate) fn holds(&self, page: u16) -> bool
        ensures { result ≡ is_held self.now page }
    {
        if (page as usize) < all_of(&self.all).len() {
            return true;
        }
        is_among(&self.frames[..self.count], page)
    }

    /// Whether each held page is among these.
    pub(crate) fn holds_only(&self, pages: &[u16]) -> bool
        ensures { result ≡ are_all_among (pages_held self.now) pages.now }
    {
        are_all_pages_among(all_of(&self.all), pages)
            && are_among(&self.frames[..self.count], pages)
    }

    /// The cell of an id whose page is held.
    pub(crate) fn cell(&self, id: u32) -> &Cell<SLOTS>
        requires above { (0 < id) × (id < 65536) }
        requires there { is_held self.now (page_of_id id) ≡ true }
        requires agrees { (cells : List StoredCell) × Agree cells self.now }
        ensures stored { (cells : List StoredCell) → Agree cells self.now → cell_of result.now ≡ cell_at cells id }
        ensures id { result.now.id ≡ id }
        ensures rules { IsCell id result.now }
    {
        let page = page_of(id);
        let all = all_of(&self.all);
        if (page as usize) < all.len() {
            return all[page as usize].page.cell(id);
        }
        let place = place_of(&self.frames[..self.count], page);
        self.frames[place].frame.page.cell(id)
    }

    /// Puts a cell in the place of the one with the same id, whose page is held.
    pub(crate) fn put_cell(&mut self, cell: Cell<SLOTS>)
        requires above { (0 < cell.id) × (cell.id < 65536) }
        requires there { is_held self.old (page_of_id cell.id) ≡ true }
        requires agrees { (cells : List StoredCell) × Agree cells self.old }
        requires rules { IsCell cell.id cell }
        ensures stored { (cells : List StoredCell) → Agree cells self.old → Agree (edit cells cell.entry.id (λ _. cell_of cell.entry)) self.new }
        ensures pages { pages_held self.new ≡ pages_held self.old }
    {
        let page = page_of(cell.id);
        if (page as usize) < all_of(&self.all).len() {
            put_in_all(&mut self.all, cell);
            return;
        }
        let place = place_of(&self.frames[..self.count], page);
        self.frames[place].frame.page.put_cell(cell);
    }

    /// Lays a pointer in a slot of the cell of an id whose page is held: the id that it names, or 0 for null, and its bit.
    #[inline(always)]
    pub(crate) fn set_pointer(&mut self, id: u32, slot: u8, target: u32, bit: bool)
        requires size { IsSlotCount SLOTS }
        requires above { (0 < id) × (id < 65536) }
        requires there { is_held self.old (page_of_id id) ≡ true }
        requires agrees { (cells : List StoredCell) × Agree cells self.old × (is_live cells id ≡ true) }
        requires within { slot < SLOTS }
        requires null { target ≡ 0 → bit ≡ false }
        ensures stored { (cells : List StoredCell) → Agree cells self.old → Agree (edit cells id (relink slot (record { target = target; bit = bit }))) self.new }
        ensures pages { pages_held self.new ≡ pages_held self.old }
    {
        let page = page_of(id);
        if (page as usize) < all_of(&self.all).len() {
            if let Some(frames) = &mut self.all {
                frames[page as usize]
                    .page
                    .set_pointer(id, slot, target, bit);
                return;
            }
            unreachable!()
        }
        let place = place_of(&self.frames[..self.count], page);
        self.frames[place]
            .frame
            .page
            .set_pointer(id, slot, target, bit);
    }

    /// The cell of an id whose page is held counts one pointer with this bit more. Tells whether no strong one leads to its
    /// object now.
    pub(crate) fn gain(&mut self, id: u32, bit: bool) -> bool
        requires above { (0 < id) × (id < 65536) }
        requires there { is_held self.old (page_of_id id) ≡ true }
        requires room { (cells : List StoredCell) × Agree cells self.old × (is_live cells id ≡ true) × (counted bit (cell_at cells id) + 1 < 2 ^ 32) }
        ensures zero { (cells : List StoredCell) → Agree cells self.old → result ≡ has_no_strong (gains bit (cell_at cells id)) }
        ensures stored { (cells : List StoredCell) → Agree cells self.old → Agree (edit cells id (gains bit)) self.new }
        ensures pages { pages_held self.new ≡ pages_held self.old }
    {
        let page = page_of(id);
        if (page as usize) < all_of(&self.all).len() {
            if let Some(frames) = &mut self.all {
                return frames[page as usize].page.gain(id, bit);
            }
            unreachable!()
        }
        let place = place_of(&self.frames[..self.count], page);
        self.frames[place].frame.page.gain(id, bit)
    }

    /// The cell of an id whose page is held counts one pointer with this bit less.
    pub(crate) fn lose(&mut self, id: u32, bit: bool) -> Lost
        requires above { (0 < id) × (id < 65536) }
        requires there { is_held self.old (page_of_id id) ≡ true }
        requires some { (cells : List StoredCell) × Agree cells self.old × (is_live cells id ≡ true) × (0 < counted bit (cell_at cells id)) }
        ensures strong { (cells : List StoredCell) → Agree cells self.old → result.strong ≡ same (cell_at cells id).bit bit }
        ensures zero { (cells : List StoredCell) → Agree cells self.old → result.none_left ≡ has_no_strong (loses bit (cell_at cells id)) }
        ensures stored { (cells : List StoredCell) → Agree cells self.old → Agree (edit cells id (loses bit)) self.new }
        ensures pages { pages_held self.new ≡ pages_held self.old }
    {
        let page = page_of(id);
        if (page as usize) < all_of(&self.all).len() {
            if let Some(frames) = &mut self.all {
                return frames[page as usize].page.lose(id, bit);
            }
            unreachable!()
        }
        let place = place_of(&self.frames[..self.count], page);
        self.frames[place].frame.page.lose(id, bit)
    }

    /// The cell of an id whose page is held counts one pointer with the other bit in place of one with this bit. Tells whether
    /// no strong one leads to its object now.
    pub(crate) fn turn(&mut self, id: u32, bit: bool) -> bool
        requires above { (0 < id) × (id < 65536) }
        requires there { is_held self.old (page_of_id id) ≡ true }
        requires some { (cells : List StoredCell) × Agree cells self.old × (is_live cells id ≡ true) × (0 < counted bit (cell_at cells id)) }
        requires room { (cells : List StoredCell) × Agree cells self.old × (counted (not bit) (cell_at cells id) + 1 < 2 ^ 32) }
        ensures zero { (cells : List StoredCell) → Agree cells self.old → result ≡ has_no_strong (turned bit (cell_at cells id)) }
        ensures stored { (cells : List StoredCell) → Agree cells self.old → Agree (edit cells id (turned bit)) self.new }
        ensures pages { pages_held self.new ≡ pages_held self.old }
    {
        let page = page_of(id);
        if (page as usize) < all_of(&self.all).len() {
            if let Some(frames) = &mut self.all {
                return frames[page as usize].page.turn(id, bit);
            }
            unreachable!()
        }
        let place = place_of(&self.frames[..self.count], page);
        self.frames[place].frame.page.turn(id, bit)
    }
}
