//! What a call wants to be done with the pages that are held.

ghost use Rattle.std.specs.Prelude.{◌≡◌, ℕ, ◌<◌, List, IfSome, [], ◌∷◌, true, map};
ghost use Rattle.cell_model.specs.Cells.{Cell as StoredCell, cell_at, is_live, pointer_at};
ghost use Rattle.cell_page.specs.Format.{IsSlotCount, page_of_id};
ghost use Rattle.core_store.specs.Frames.{pages_held, is_held, Agree, AreOnce};
ghost use Rattle.core_store.specs.Logged.{want_of, next_page};
ghost use Rattle.core_store.specs.Work.{IsWork, HasSmallTargets, pages_of_work, page_or, three_pages};

use crate::three::Three;
use cell_page::page_of;

/// What is to be done before a call can be made.
#[derive(Clone, Copy, PartialEq, Eq, Debug)]
pub enum Want {
    /// The frame of this page is to be held too.
    Page(u16),
    /// A held page isn't needed, or others are held without the first: all are to be let go.
    LetGo,
    /// The needed pages are held, and no others: the call can be made.
    Ready,
}

/// The object that a call works on, and, where it changes a slot, this slot and what it is to hold.
#[derive(Clone, Copy, PartialEq, Eq, Debug)]
pub struct Work {
    /// The object's id.
    pub id: u32,
    /// The slot that changes, and the id that it is to hold, or 0 for null.
    pub change: Option<(u8, u32)>,
}

/// The page of an id, or the other one for null.
fn page_or(id: u32, other: u16) -> u16
    requires { id < 65536 }
    ensures { result ≡ page_or id other }
{
    if id == 0 { other } else { page_of(id) }
}

/// The first of these pages that isn't held.
fn next_page<const SLOTS: usize>(held: &Three<SLOTS>, needed: &[u16]) -> Want
    ensures { result ≡ next_page needed.now (pages_held held.now) }
{
    for page in needed {
        if !held.holds(*page) {
            return Want::Page(*page);
        }
    }
    Want::Ready
}

/// The pages of the object, of what its slot holds and of what the slot is to hold.
fn pages_of<const SLOTS: usize>(held: &Three<SLOTS>, work: Work, first: u16) -> [u16; 3]
    requires work { IsWork SLOTS work }
    requires first { first ≡ page_of_id work.id }
    requires there { is_held held.now first ≡ true }
    requires agrees { (cells : List StoredCell) × Agree cells held.now × HasSmallTargets cells }
    ensures { (cells : List StoredCell) → Agree cells held.now → result ≡ three_pages cells work }
{
    match work.change {
        None => [first; 3],
        Some((slot, target)) => {
            let old = held.cell(work.id).slots[slot as usize];
            [first, page_or(old, first), page_or(target, first)]
        }
    }
}

/// What is to be done with the held pages where none is needed.
pub(crate) fn let_go<const SLOTS: usize>(held: &Three<SLOTS>) -> Want
    ensures exact { result ≡ want_of [] (pages_held held.now) }
    ensures none { (page : ℕ) → result ≡ Want.Page page → ⊥ }
{
    if held.is_empty() {
        Want::Ready
    } else {
        Want::LetGo
    }
}

/// What is to be done with the held pages where a call works so, or works on no object.
pub(crate) fn wanted<const SLOTS: usize>(held: &Three<SLOTS>, work: Option<Work>) -> Want
    requires work { IfSome work (IsWork SLOTS) }
    requires agrees { (cells : List StoredCell) × Agree cells held.now × HasSmallTargets cells }
    ensures exact { (cells : List StoredCell) → Agree cells held.now → result ≡ want_of (pages_of_work cells work) (pages_held held.now) }
    ensures once { AreOnce held.now }
{
    let Some(work) = work else {
        return if held.is_empty() {
            Want::Ready
        } else {
            Want::LetGo
        };
    };
    let first = page_of(work.id);
    if held.is_empty() {
        return Want::Page(first);
    }
    if !held.holds(first) {
        return Want::LetGo;
    }
    let needed = pages_of(held, work, first);
    if !held.holds_only(&needed) {
        return Want::LetGo;
    }
    next_page(held, &needed)
}
