//! The reader of a stream.
ghost use Rattle.std.specs.Prelude.{◌≡◌, ◌↔◌, ◌+◌, ◌≤◌, ◌<◌, ◌^◌, ◌==◌, if◌then◌else◌, ℕ, List, [], ◌∷◌, true, Some, length, take, IfOk, IfSome, IfNone, IsErrOf, MatchOption};
ghost use Rattle.std.specs.Int.{w16, w32, to_be_bytes};
ghost use Rattle.cell_page.specs.Format.{IsSlotCount, page_size};
ghost use Rattle.ship_stream.specs.declared.stage.Stage.TheVariants.{Number as AtNumber, Base as AtBase, FirstBatch as AtFirstBatch, InBatch as AtBatch, Ended as HasEnded, Damaged as IsDamaged};
ghost use Rattle.ship_stream.specs.declared.refusal.FeedRefusal.TheVariants.{Damaged, Memory};
ghost use Rattle.ship_stream.specs.Reading.{Reading, base_size, IsPageCount, IsSize, HasAllPages};
ghost use Rattle.ship_stream.specs.Feeding.{fresh, IsWhole, HasTaken, Takes, IsTaken, FindsDamage, IsWaiting, HasRoom};

use crate::bodies::first_fault;
use crate::fill::fill;
use crate::part::Part;
use crate::records::Records;
use crate::refusal::FeedRefusal;
use crate::stage::Stage;
use cell_page::Page;
use std::alloc::Global;
use std::marker::Model;
use std::mem;

/// How many bytes the number of pages takes, and how many pages there are at most.
const NUMBER: usize = 2;

const MOST_PAGES: u16 = 1024;

/// How many bytes the length of a body takes, and how many bytes a body has at most.
const LENGTH: usize = 4;

const MOST_BODY: u32 = 67_108_864;

/// A log area has no more bytes.
const MOST_AREA: u64 = 1 << 30;

/// An open commit byte.
const OPEN: u8 = 1;

/// Reads a stream that comes in pieces. It keeps the bytes of one part, until that is whole.
#[derive(Debug, Drop)]
pub struct Feed<const SLOTS: usize> {
    alloc: Global,
    stage: Stage,
    count: u16,
    whole: u16,
    at: u64,
    held: Vec<u8>,
}

impl<const SLOTS: usize> Model for Feed<SLOTS> {
    ghost use Rattle.ship_stream.specs.Feeding.{Feeding, IsFeeding};

    ghost Value = { Feeding };

    ghost view = { λ f. record { stage = f.stage; count = f.count; whole = f.whole; at = f.at; held = f.held.items } };

    ghost invariant = { λ f. IsFeeding SLOTS (record { stage = f.stage; count = f.count; whole = f.whole; at = f.at; held = f.held.items }) };
}

/// The number that these bytes are.
fn number_in(bytes: &[u8]) -> u16
    requires { 2 ≤ length bytes.now }
    ensures { to_be_bytes w16 result ≡ take 2 bytes.now }
{
    u16::from_be_bytes([bytes[0], bytes[1]])
}

/// The length that stands in front of these bytes.
fn size_in(bytes: &[u8]) -> u32
    requires { 4 ≤ length bytes.now }
    ensures { to_be_bytes w32 result ≡ take 4 bytes.now }
{
    u32::from_be_bytes([bytes[0], bytes[1], bytes[2], bytes[3]])
}

/// Whether a stream may have so many pages.
fn is_page_count(count: u16) -> bool
    ensures { (result ≡ true) ↔ IsPageCount count }
{
    count >= 1 && count <= MOST_PAGES
}

/// Whether a body may have so many bytes.
fn is_size(size: u32) -> bool
    ensures { (result ≡ true) ↔ IsSize size }
{
    size >= 1 && size <= MOST_BODY
}

/// How many bytes the number and so many pages take.
fn base_len<const SLOTS: usize>(pages: u16) -> u64
    requires { IsSlotCount SLOTS }
    ensures { result ≡ base_size SLOTS pages }
{
    NUMBER as u64 + pages as u64 * Page::<SLOTS>::encoded_len() as u64
}

/// What a stream of so many pages goes on with after the page of this number.
fn stage_behind(page: u16, count: u16) -> Stage
    requires { page < count }
    ensures { result ≡ (if page + 1 == count then AtFirstBatch else AtBase) }
{
    if page + 1 == count {
        Stage::FirstBatch
    } else {
        Stage::Base
    }
}

/// What a stream goes on with at the commit byte after a batch.
fn stage_at(commit_byte: u8) -> Stage
    ensures { result ≡ (if commit_byte == 1 then AtBatch else HasEnded) }
{
    if commit_byte == OPEN {
        Stage::InBatch
    } else {
        Stage::Ended
    }
}

/// The stream is damaged at this offset.
fn damage(stage: &mut Stage, at: u64) -> FeedRefusal
    ensures refusal { result ≡ Damaged at }
    ensures stage { stage.new ≡ IsDamaged at }
{
    *stage = Stage::Damaged { at };
    FeedRefusal::Damaged { at }
}

impl<const SLOTS: usize> Feed<SLOTS> {
    /// The reader at the front of a stream. It takes no memory.
    pub fn new(alloc: Global) -> Feed<SLOTS>
        requires { IsSlotCount SLOTS }
        ensures { result ≡ fresh }
    {
        Feed {
            alloc,
            stage: Stage::Number,
            count: 0,
            whole: 0,
            at: 0,
            held: Vec::new(alloc),
        }
    }

    /// Whether the closed commit byte came. What comes after it is ignored.
    pub fn ended(&self) -> bool
        ensures { (result ≡ true) ↔ (self.now.stage ≡ HasEnded) }
    {
        self.stage == Stage::Ended
    }

    /// How many bytes came, where the number of pages and the pages are not all there. The stream isn't damaged.
    pub fn len_without_base(&self) -> Option<u64>
        requires { (at : ℕ) → self.now.stage ≡ IsDamaged at → ⊥ }
        ensures { (r : Reading SLOTS) (bytes : List ℕ) → HasTaken r bytes self.now → MatchOption result (HasAllPages r) (λ len. (HasAllPages r → ⊥) × (len ≡ length bytes)) }
    {
        match self.stage {
            Stage::Number | Stage::Base => Some(self.at + self.held.len() as u64),
            _ => None,
        }
    }

    /// Takes the memory of records that are done with, for what is kept of the next part. Else nothing changes.
    pub fn reuse(&mut self, records: Records<SLOTS>)
        ensures { self.new ≡ self.old }
    {
        if self.held.is_empty() {
            self.held = records.into_room();
        }
    }

    /// Takes bytes from the front of the piece up to the one with which a part is whole, and hands the part out, or all of them.
    /// A batch is whole with the commit byte after it.
    ///
    /// [`FeedRefusal::Damaged`] comes exactly where the bytes so far show that they are no stream. [`FeedRefusal::Memory`]
    /// leaves the reader as it was.
    pub fn next(&mut self, piece: &[u8]) -> Result<(usize, Option<Part<SLOTS>>), FeedRefusal>
        ensures takes { IfOk result (Takes self.old self.new piece.now) }
        ensures taken { IfOk result (λ found. IsTaken piece.now found.0) }
        ensures some { IfOk result (λ found. IfSome found.1 (λ _. 1 ≤ found.0)) }

        // Where no part is handed out none is whole, and nothing shows that this is no stream.
        ensures waits { IfOk result (λ found. IfNone found.1 ((r : Reading SLOTS) (bytes : List ℕ) (t : HasTaken r bytes self.new) → IsWaiting r t.rest)) }
        ensures damaged { (at : ℕ) → IsErrOf result (Damaged at) → FindsDamage SLOTS self.old self.new piece.now at }
        ensures memory { IsErrOf result Memory → self.new ≡ self.old }
    {
        let found = self.step(piece);
        let _at = self.at;
        found
    }

    /// Goes on with what the stream goes on with.
    fn step(&mut self, piece: &[u8]) -> Result<(usize, Option<Part<SLOTS>>), FeedRefusal>
        ensures takes { IfOk result (Takes self.old self.new piece.now) }
        ensures taken { IfOk result (λ found. IsTaken piece.now found.0) }
        ensures some { IfOk result (λ found. IfSome found.1 (λ _. 1 ≤ found.0)) }
        ensures damaged { (at : ℕ) → IsErrOf result (Damaged at) → FindsDamage SLOTS self.old self.new piece.now at }
        ensures memory { IsErrOf result Memory → self.new ≡ self.old }
        ensures room { IfOk result (λ found. IfNone found.1 (HasRoom SLOTS self.new.stage self.new)) }
    {
        match self.stage {
            Stage::Number => self.next_number(piece),
            Stage::Base => self.next_page(piece),
            Stage::FirstBatch => self.next_first(piece),
            Stage::InBatch => self.next_batch(piece),
            Stage::Ended => Ok((piece.len(), None)),
            Stage::Damaged { at } => Err(FeedRefusal::Damaged { at }),
        }
    }

    /// Goes on with the number of pages.
    fn next_number(&mut self, piece: &[u8]) -> Result<(usize, Option<Part<SLOTS>>), FeedRefusal>
        requires { self.old.stage ≡ AtNumber }
        ensures takes { IfOk result (Takes self.old self.new piece.now) }
        ensures taken { IfOk result (λ found. IsTaken piece.now found.0) }
        ensures some { IfOk result (λ found. IfSome found.1 (λ _. 1 ≤ found.0)) }
        ensures damaged { (at : ℕ) → IsErrOf result (Damaged at) → FindsDamage SLOTS self.old self.new piece.now at }
        ensures memory { IsErrOf result Memory → self.new ≡ self.old }
        ensures room { IfOk result (λ found. IfNone found.1 (HasRoom SLOTS self.new.stage self.new)) }
    {
        let taken = fill(&mut self.held, NUMBER, piece)?;
        if self.held.len() < NUMBER {
            return Ok((taken, None));
        }
        let count = number_in(&self.held);
        if !is_page_count(count) {
            return Err(damage(&mut self.stage, 0));
        }
        self.held.clear();
        self.stage = Stage::Base;
        self.count = count;
        self.at = NUMBER as u64;
        Ok((taken, Some(Part::Pages(count))))
    }

    /// Goes on with a page.
    fn next_page(&mut self, piece: &[u8]) -> Result<(usize, Option<Part<SLOTS>>), FeedRefusal>
        requires { self.old.stage ≡ AtBase }
        ensures takes { IfOk result (Takes self.old self.new piece.now) }
        ensures taken { IfOk result (λ found. IsTaken piece.now found.0) }
        ensures some { IfOk result (λ found. IfSome found.1 (λ _. 1 ≤ found.0)) }
        ensures damaged { (at : ℕ) → IsErrOf result (Damaged at) → FindsDamage SLOTS self.old self.new piece.now at }
        ensures memory { IsErrOf result Memory → self.new ≡ self.old }
        ensures room { IfOk result (λ found. IfNone found.1 (HasRoom SLOTS self.new.stage self.new)) }
    {
        let number = self.whole;
        let len = Page::<SLOTS>::encoded_len();
        let before = self.held.len();
        let taken = fill(&mut self.held, len, piece)?;
        if self.held.len() < len {
            return Ok((taken, None));
        }
        match Page::decode(number, &self.held) {
            Ok(page) => {
                let Ok(page) = Box::new(self.alloc, page) else {
                    self.held.truncate(before);
                    return Err(FeedRefusal::Memory);
                };
                self.held.clear();
                self.stage = stage_behind(number, self.count);
                self.whole = number + 1;
                self.at += len as u64;
                Ok((taken, Some(Part::Page(page))))
            }
            Err(bad) => Err(damage(&mut self.stage, self.at + bad.at as u64)),
        }
    }

    /// Goes on with the commit byte of the first batch.
    fn next_first(&mut self, piece: &[u8]) -> Result<(usize, Option<Part<SLOTS>>), FeedRefusal>
        requires { self.old.stage ≡ AtFirstBatch }
        ensures takes { IfOk result (Takes self.old self.new piece.now) }
        ensures taken { IfOk result (λ found. IsTaken piece.now found.0) }
        ensures some { IfOk result (λ found. IfSome found.1 (λ _. 1 ≤ found.0)) }
        ensures damaged { (at : ℕ) → IsErrOf result (Damaged at) → FindsDamage SLOTS self.old self.new piece.now at }
        ensures memory { IsErrOf result Memory → self.new ≡ self.old }
        ensures room { IfOk result (λ found. IfNone found.1 (HasRoom SLOTS self.new.stage self.new)) }
    {
        if piece.is_empty() {
            return Ok((0, None));
        }
        if piece[0] != OPEN {
            return Err(damage(&mut self.stage, self.at));
        }
        self.stage = Stage::InBatch;
        match self.next_batch(&piece[1..]) {
            Ok((taken, part)) => Ok((1 + taken, part)),
            Err(refusal) => {
                if let FeedRefusal::Memory = refusal {
                    self.stage = Stage::FirstBatch;
                    return Err(FeedRefusal::Memory);
                }
                Err(refusal)
            }
        }
    }

    /// How many bytes there is room for after the open commit byte, up to the greatest end of a log area.
    fn room(&self) -> usize
        requires { self.now.stage ≡ AtBatch }
        ensures exact { self.now.at + 1 + result ≡ base_size SLOTS self.now.count + 2 ^ 30 }
        ensures within { length self.now.held ≤ result }
    {
        (base_len::<SLOTS>(self.count) + MOST_AREA - self.at - 1) as usize
    }

    /// Goes on with a batch after its open commit byte.
    fn next_batch(&mut self, piece: &[u8]) -> Result<(usize, Option<Part<SLOTS>>), FeedRefusal>
        requires { self.old.stage ≡ AtBatch }
        ensures takes { IfOk result (Takes self.old self.new piece.now) }
        ensures taken { IfOk result (λ found. IsTaken piece.now found.0) }
        ensures some { IfOk result (λ found. IfSome found.1 (λ _. 1 ≤ found.0)) }
        ensures damaged { (at : ℕ) → IsErrOf result (Damaged at) → FindsDamage SLOTS self.old self.new piece.now at }
        ensures memory { IsErrOf result Memory → self.new ≡ self.old }
        ensures room { IfOk result (λ found. IfNone found.1 (HasRoom SLOTS self.new.stage self.new)) }
    {
        let before = self.held.len();
        if before >= LENGTH {
            return self.next_body(piece);
        }
        let room = self.room();
        let taken = fill(&mut self.held, LENGTH.min(room), piece)?;
        if self.held.len() < LENGTH {
            if self.held.len() < room {
                return Ok((taken, None));
            }
            let end = base_len::<SLOTS>(self.count) + MOST_AREA;
            return Err(damage(&mut self.stage, end));
        }
        if !is_size(size_in(&self.held)) {
            return Err(damage(&mut self.stage, self.at));
        }
        match self.next_body(&piece[taken..]) {
            Ok((more, part)) => Ok((taken + more, part)),
            Err(refusal) => {
                if let FeedRefusal::Memory = refusal {
                    self.held.truncate(before);
                    return Err(FeedRefusal::Memory);
                }
                Err(refusal)
            }
        }
    }

    /// Goes on with the body of a batch, and with the commit byte after it.
    fn next_body(&mut self, piece: &[u8]) -> Result<(usize, Option<Part<SLOTS>>), FeedRefusal>
        requires stage { self.old.stage ≡ AtBatch }
        requires sized { 4 ≤ length self.old.held }
        ensures takes { IfOk result (Takes self.old self.new piece.now) }
        ensures taken { IfOk result (λ found. IsTaken piece.now found.0) }
        ensures some { IfOk result (λ found. IfSome found.1 (λ _. 1 ≤ found.0)) }
        ensures damaged { (at : ℕ) → IsErrOf result (Damaged at) → FindsDamage SLOTS self.old self.new piece.now at }
        ensures memory { IsErrOf result Memory → self.new ≡ self.old }
        ensures room { IfOk result (λ found. IfNone found.1 (HasRoom SLOTS self.new.stage self.new)) }
    {
        let room = self.room();
        let wanted = LENGTH + size_in(&self.held) as usize;
        let taken = fill(&mut self.held, wanted.min(room), piece)?;
        if self.held.len() == room {
            let end = base_len::<SLOTS>(self.count) + MOST_AREA;
            return Err(damage(&mut self.stage, end));
        }
        if taken == piece.len() {
            return Ok((taken, None));
        }
        match self.end_batch(piece[taken]) {
            Ok(part) => Ok((taken + 1, Some(part))),
            Err(refusal) => Err(refusal),
        }
    }

    /// Ends a batch whose body came, where this is the commit byte after it. It takes no memory.
    fn end_batch(&mut self, commit_byte: u8) -> Result<Part<SLOTS>, FeedRefusal>
        requires stage { self.old.stage ≡ AtBatch }
        requires whole { IsWhole self.old.held }
        requires room { self.old.at + 1 + length self.old.held < base_size SLOTS self.old.count + 2 ^ 30 }
        ensures takes { IfOk result (λ part. Takes self.old self.new (commit_byte ∷ []) (1, Some part)) }
        ensures damaged { (at : ℕ) → IsErrOf result (Damaged at) → FindsDamage SLOTS self.old self.new (commit_byte ∷ []) at }
        ensures refusals { IsErrOf result Memory → ⊥ }
    {
        let at = self.at;
        let is_first = at == base_len::<SLOTS>(self.count);
        if let Some(offset) = first_fault::<SLOTS>(&self.held[LENGTH..], is_first, self.count) {
            return Err(damage(&mut self.stage, at + 1 + LENGTH as u64 + offset as u64));
        }
        let len = self.held.len() as u64;
        let bytes = mem::replace(&mut self.held, Vec::new(self.alloc));
        self.at = at + 1 + len;
        self.stage = stage_at(commit_byte);
        Ok(Part::Batch {
            at,
            records: Records::new(bytes, LENGTH, at + 1 + LENGTH as u64),
        })
    }
}
