//! The lines of a log, one after another.
ghost use Rattle.std.specs.Prelude.{◌≡◌, ◌<◌, ◌≤◌, ◌++◌, [], ℕ, List, length, IfOk, IfSome, IsErrOf, MatchOption, true, false};
ghost use Rattle.cell_page.specs.Format.{IsSlotCount};
ghost use Rattle.log_record.specs.declared.record.Record.{Record as LogRecord};
ghost use Rattle.opened_images.specs.LogRecords.{IsRecordLog};
ghost use Rattle.log_printing.specs.declared.view_refusal.ViewRefusal.TheVariants.{Damaged};
ghost use Rattle.log_printing.specs.Damage.{IsDamagedFor};
ghost use Rattle.log_printing.specs.Lines.{AreLeft, GivesText, IsPlaceIn, GoesToRecord};
ghost use Rattle.log_printing.specs.Text.{text_of};

use crate::areas::size_in;
use crate::record_lines::{LINE_ROOM, record_line};
use crate::testing::test_log;
use crate::view_refusal::ViewRefusal;
use arrayvec::ArrayString;
use log_record::Record;
use std::alloc::Global;
use std::marker::Model;

/// An open commit byte.
const OPEN: u8 = 1;

/// How many bytes stand in front of a body: its commit byte and its length.
const FRONT: usize = 5;

/// Where the next line of a log area begins. It doesn't hold the area: each call is handed it, and it must be the same one.
#[derive(Debug, Drop)]
pub struct LogLines<const SLOTS: usize> {
    at: usize,
    end: usize,
}

impl<const SLOTS: usize> Model for LogLines<SLOTS> {
    ghost use Rattle.log_printing.specs.Lines.{Place};

    ghost Value = { Place };

    ghost view = { λ l. record { at = l.at; end = l.end } };
}

impl<const SLOTS: usize> LogLines<SLOTS> {
    /// The first line of the log of a store of so many pages, where the area is one: its batches are whole, and each record fits
    /// those before it, as far as that shows without the cells.
    ///
    /// [`ViewRefusal::Damaged`] tells the first fault. A first record that is a `Turn` of another version or with another number
    /// of pages is one.
    pub fn open(alloc: Global, area: &[u8], pages: u16) -> Result<LogLines<SLOTS>, ViewRefusal>
        requires { IsSlotCount SLOTS }
        ensures text { IfOk result (λ lines. (batches : List (List (LogRecord SLOTS))) × IsRecordLog pages batches area.now × GivesText SLOTS area.now (text_of pages batches) lines) }
        ensures damaged { (at : ℕ) → IsErrOf result (Damaged at) → IsDamagedFor SLOTS pages area.now at }
    {
        match test_log::<SLOTS>(alloc, area, pages) {
            Ok(()) => Ok(LogLines { at: 0, end: 0 }),
            Err(refusal) => Err(refusal),
        }
    }

    /// Goes into the batch after the commit byte that stands here, where that is open. Whether it is.
    fn enter(&mut self, area: &[u8]) -> bool
        requires place { IsPlaceIn SLOTS area.now self.old }
        requires ended { self.old.at ≡ self.old.end }
        ensures more { result ≡ true → GoesToRecord SLOTS area.now self.old self.new }
        ensures none { result ≡ false → (items : List (ℕ × LogRecord SLOTS)) → AreLeft area.now items self.old → items ≡ [] }
    {
        if area[self.at] != OPEN {
            return false;
        }
        let size = size_in(&area[self.at + 1..]) as usize;
        self.at += FRONT;
        self.end = self.at + size;
        true
    }

    /// Goes to the next record. Whether there is one.
    fn find_record(&mut self, area: &[u8]) -> bool
        requires place { IsPlaceIn SLOTS area.now self.old }
        ensures more { result ≡ true → GoesToRecord SLOTS area.now self.old self.new }
        ensures none { result ≡ false → (items : List (ℕ × LogRecord SLOTS)) → AreLeft area.now items self.old → items ≡ [] }
    {
        if self.at < self.end {
            return true;
        }
        self.enter(area)
    }

    /// The line of the record that stands here.
    fn take_line(&mut self, area: &[u8]) -> Option<ArrayString<LINE_ROOM>>
        requires slots { IsSlotCount SLOTS }
        requires place { IsPlaceIn SLOTS area.now self.old }
        requires some { self.old.at < self.old.end }
        requires within { self.old.end ≤ length area.now }
        ensures next { (text : List ℕ) → GivesText SLOTS area.now text self.old
            → MatchOption result (text ≡ []) (λ line. (rest : List ℕ) × (text ≡ line.bytes ++ rest) × GivesText SLOTS area.now rest self.new) }
        ensures goes_on { IfSome result (λ _. (self.old.at < self.new.at) × (self.new.at ≤ length area.now)) }
    {
        match Record::<SLOTS>::read(&area[self.at..self.end]) {
            Ok((rec, len)) => {
                let line = record_line(self.at as u64, &rec);
                self.at += len;
                Some(line)
            }
            Err(_) => None,
        }
    }

    /// The next line, with its line feed, of the area of which the first line was given. It takes no memory.
    pub fn next(&mut self, area: &[u8]) -> Option<ArrayString<LINE_ROOM>>
        requires slots { IsSlotCount SLOTS }
        requires place { IsPlaceIn SLOTS area.now self.old }
        ensures next { (text : List ℕ) → GivesText SLOTS area.now text self.old
            → MatchOption result (text ≡ []) (λ line. (rest : List ℕ) × (text ≡ line.bytes ++ rest) × GivesText SLOTS area.now rest self.new) }
        ensures goes_on { IfSome result (λ _. (self.old.at < self.new.at) × (self.new.at ≤ length area.now)) }
    {
        if !self.find_record(area) {
            return None;
        }
        self.take_line(area)
    }
}
