//! The whole text of a log.
ghost use Rattle.std.specs.Prelude.{◌≡◌, ℕ, List, IfOk, IsErrOf};
ghost use Rattle.cell_page.specs.Format.{IsSlotCount};
ghost use Rattle.log_record.specs.declared.record.Record.{Record as LogRecord};
ghost use Rattle.opened_images.specs.LogRecords.{IsRecordLog};
ghost use Rattle.log_printing.specs.declared.view_refusal.ViewRefusal.TheVariants.{Damaged};
ghost use Rattle.log_printing.specs.Damage.{IsDamagedFor};
ghost use Rattle.log_printing.specs.Text.{text_of};

use crate::lines::LogLines;
use crate::view_refusal::ViewRefusal;
use std::alloc::Global;
use std::marker::Model;

/// The text of a log, in bytes.
#[derive(Debug, Drop)]
pub struct Text {
    bytes: Vec<u8>,
}

impl Model for Text {
    ghost use Rattle.std.specs.Prelude.{List, ℕ};

    ghost Value = { List ℕ };

    ghost view = { λ t. t.bytes.items };
}

impl Text {
    /// Its bytes, in their order.
    pub fn bytes(&self) -> &[u8]
        ensures { result.now ≡ self.now }
    {
        self.bytes.as_slice()
    }
}

/// The text of the log of a store of so many pages: a line for each record, in order. What it takes of memory grows with the text;
/// [`LogLines`] gives the same lines one after another.
///
/// [`ViewRefusal::Damaged`] tells the first fault of an area that is no such log. A first record that is a `Turn` of another
/// version or with another number of pages is one. Whether records fit the cells is not tested.
pub fn log_text<const SLOTS: usize>(
    alloc: Global,
    area: &[u8],
    pages: u16,
) -> Result<Text, ViewRefusal>
    requires { IsSlotCount SLOTS }
    ensures text { IfOk result (λ text. (batches : List (List (LogRecord SLOTS))) × IsRecordLog pages batches area.now × (text ≡ text_of pages batches)) }
    ensures damaged { (at : ℕ) → IsErrOf result (Damaged at) → IsDamagedFor SLOTS pages area.now at }
{
    let mut lines = match LogLines::<SLOTS>::open(alloc, area, pages) {
        Ok(lines) => lines,
        Err(refusal) => return Err(refusal),
    };
    let mut bytes = Vec::new(alloc);
    'lines: while let Some(line) = lines.next(area) {
        bytes.extend_from_slice(line.as_str().as_bytes())?;
    }
    Ok(Text { bytes })
}
