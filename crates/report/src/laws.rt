//! Laws of reports as text.
ghost use Rattle.std.specs.Prelude.{◌≡◌, ℕ, List, Ok};
ghost use Rattle.report.specs.Fits.{FitsRecord};
ghost use Rattle.report.specs.Reading.{report_at};
ghost use Rattle.report.specs.Records.{IsRecord};
ghost use Rattle.report.specs.Report.{text};
ghost use Rattle.report.specs.Writable.{IsWritable};
ghost use Rattle.report.specs.declared.record.Record.{Record};

/// Laws of reports as text.
pub fn report_law()
    // What is written of a record is read as it.
    ensures again { (r : Record) → IsRecord r → report_at (text r) ≡ Ok r }
    // No two records have one text.
    ensures one { (r other : Record) → IsRecord r → IsRecord other → text r ≡ text other → r ≡ other }
    // What is read is a record.
    ensures found { (bytes : List ℕ) (r : Record) → report_at bytes ≡ Ok r → IsRecord r }
    // It is read of its text alone.
    ensures only { (bytes : List ℕ) (r : Record) → report_at bytes ≡ Ok r → text r ≡ bytes }
{}

/// What fits and can be spelled is a record. That it fits is in its types (`record_fits`).
pub fn record_law()
    ensures { (r : Record) → FitsRecord r → IsWritable r → IsRecord r }
{}
