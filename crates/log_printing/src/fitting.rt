//! Which records fit after those of a log so far.
ghost use Rattle.std.specs.Prelude.{◌≡◌, ◌≢◌, ◌↔◌, ◌≤◌, [], Err, length, IfOk, OnOk, OnErr};
ghost use Rattle.cell_page.specs.Format.{IsSlotCount};
ghost use Rattle.log_record.specs.Spelling.{HasSpelling};
ghost use Rattle.log_replay.specs.Inside.{AreStorePages};
ghost use Rattle.log_replay.specs.declared.refusals.TakeRefusal.TheVariants.{Unfit};
ghost use Rattle.opened_images.specs.LogRecords.{FitsLog, unended_by};
ghost use Rattle.log_printing.specs.Fitting.{fitting_from};

use cell_page::Page;
use log_record::Record;
use log_replay::{Replay, TakeRefusal};
use std::alloc::{AllocError, Global};
use std::marker::Model;

/// What the records of a log tell so far of the transactions that haven't ended, without the cells.
#[derive(Drop)]
pub(crate) struct LogFitting<const SLOTS: usize> {
    /// How many pages the store has.
    pages: u16,
    /// It awaits images of all pages, so it leaves all cells alone.
    replay: Replay<SLOTS>,
}

/// Contracts see how many pages the store has, and the transactions that haven't ended.
impl<const SLOTS: usize> Model for LogFitting<SLOTS> {
    ghost use Rattle.log_printing.specs.Fitting.{Fitting, LeavesCells};

    ghost Value = { Fitting };

    ghost view = { λ f. record { pages = f.pages; unended = f.replay.unended } };

    ghost invariant = { λ f. LeavesCells f.pages f.replay };
}

/// So many pages as they are in a new store, which stand for those that are not looked at.
fn placeholders<const SLOTS: usize>(
    alloc: Global,
    pages: u16,
) -> Result<Vec<Page<SLOTS>>, AllocError>
    requires count { IsSlotCount SLOTS }
    requires pages { (1 ≤ pages) × (pages ≤ 1024) }
    ensures pages { IfOk result (λ held. AreStorePages held.items) }
    ensures number { IfOk result (λ held. length held.items ≡ pages) }
{
    let mut held = Vec::new(alloc);
    for page in 0..pages {
        held.push(Page::fresh(page))?;
    }
    Ok(held)
}

impl<const SLOTS: usize> LogFitting<SLOTS> {
    /// After the first record of the log of a store of so many pages.
    pub(crate) fn new(alloc: Global, pages: u16) -> Result<LogFitting<SLOTS>, AllocError>
        requires count { IsSlotCount SLOTS }
        requires pages { (1 ≤ pages) × (pages ≤ 1024) }
        ensures { IfOk result (λ f. f ≡ fitting_from pages) }
    {
        let held = placeholders::<SLOTS>(alloc, pages)?;
        let skip = vec![in alloc; u32::MAX; pages as usize]?;
        Ok(LogFitting {
            pages,
            replay: Replay::over(alloc, held, skip),
        })
    }

    /// Takes the next record.
    pub(crate) fn take(&mut self, rec: &Record<SLOTS>) -> Result<(), TakeRefusal>
        requires { HasSpelling rec.now }
        ensures ok { OnOk result (self.new ≡ record { pages = self.old.pages; unended = unended_by self.old.unended rec.now }) }
        ensures err { OnErr result (self.new ≡ self.old) }

        // `Unfit` is the answer exactly where the record doesn't fit.
        ensures unfit { (result ≢ Err Unfit) ↔ FitsLog self.old.pages self.old.unended rec.now }
    {
        match rec {
            Record::OfCells(r) => self.replay.take_of_cells(r),
            Record::Image { page, .. } => {
                if *page >= self.pages {
                    return Err(TakeRefusal::Unfit);
                }
                Ok(())
            }
            Record::Turn { .. } => Err(TakeRefusal::Unfit),
        }
    }
}
