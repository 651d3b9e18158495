//! What the laws of a store say of its records.

ghost use Rattle.std.specs.Prelude.{◌≡◌, ◌++◌, ℕ, List};
ghost use Rattle.cell_page.specs.Format.{IsSlotCount};
ghost use Rattle.cell_model.specs.Cells.{Cell as StoredCell, IsExact};
ghost use Rattle.cell_model.specs.Strong.{HasNoStrongCycle};
ghost use Rattle.log_record.specs.declared.cell_record.CellRecord.{CellRecord};
ghost use Rattle.log_record.specs.declared.record.Record.{Record};
ghost use Rattle.log_record.specs.Spelling.{IsSpelled, BeginsWith};
ghost use Rattle.log_record.specs.Records.{after_cell_record, FitsCells, LaysWell};

/// Each record that fits the cells keeps exact counts, and strong pointers without a cycle.
pub fn cell_records_stay_sound()
    ensures exact { (slots : ℕ) (cells : List StoredCell) (r : CellRecord) →
        FitsCells cells r → IsExact cells → IsExact (after_cell_record slots cells r) }
    ensures acyclic { (slots : ℕ) (cells : List StoredCell) (r : CellRecord) →
        FitsCells cells r → LaysWell cells r → IsExact cells → HasNoStrongCycle cells → HasNoStrongCycle (after_cell_record slots cells r) }
{}

/// Bytes begin with one record at most. So no spelling is a prefix of another record's.
pub fn one_record_begins()
    ensures one { (slots : ℕ) (bytes : List ℕ) (r s : Record slots) (m n : ℕ) →
        IsSlotCount slots → BeginsWith bytes r m → BeginsWith bytes s n → (r ≡ s) × (m ≡ n) }
    ensures prefix { (slots : ℕ) (r s : Record slots) (bytes more rest : List ℕ) →
        IsSlotCount slots → IsSpelled r bytes → IsSpelled s more → more ≡ bytes ++ rest → (r ≡ s) × (bytes ≡ more) }
{}
