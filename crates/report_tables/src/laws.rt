//! What is written is read again, what is read is written back, and the fixed numbers.

ghost use Rattle.std.specs.Prelude.{◌≡◌, ◌<◌, ◌^◌, ℕ, List, None};
ghost use Rattle.cu_base.specs.Bytes.{IsBytes};
ghost use Rattle.cu_base.specs.Fields.{number_at};
ghost use Rattle.cu_base.specs.Refusals.{first_refusal};
ghost use Rattle.report_tables.specs.Esrt.{AreEntries, entries_in, esrt_bytes, esrt_rows};
ghost use Rattle.report_tables.specs.Results.{IsResult, result_fields, result_layout, result_rows};
ghost use Rattle.report_tables.specs.declared.esrt.EsrtEntry.{EsrtEntry};
ghost use Rattle.report_tables.specs.declared.esrt.TheConstants.{ENTRY_BYTES, ESRT_HEADER_BYTES};
ghost use Rattle.report_tables.specs.declared.esrt.TheConstants.{ESRT_VERSION};
ghost use Rattle.report_tables.specs.declared.result.ResultVar.{ResultVar};
ghost use Rattle.report_tables.specs.declared.result.TheConstants.{FMP_RESULT_BYTES};
ghost use Rattle.report_tables.specs.declared.result.TheConstants.{FMP_RESULT_VERSION};
ghost use Rattle.report_tables.specs.declared.result.TheConstants.{RESULT_HEADER_BYTES};

/// The sizes and versions of the layouts (UEFI 2.10, 23.4 and 8.5.6).
pub fn fixed_numbers_are()
    ensures esrt { (ESRT_HEADER_BYTES ≡ 16) × (ENTRY_BYTES ≡ 40) × (ESRT_VERSION ≡ 1) }
    ensures results { (RESULT_HEADER_BYTES ≡ 48) × (FMP_RESULT_BYTES ≡ 68)
        × (FMP_RESULT_VERSION ≡ 1) }
{}

/// A table is not refused and its entries are read again from its layout; bytes that are not
/// refused are the layout of the entries that are read.
pub fn esrt_law()
    ensures accepted { (entries : List EsrtEntry) → AreEntries entries →
        first_refusal (esrt_rows (esrt_bytes entries)) ≡ None }
    ensures again { (entries : List EsrtEntry) → AreEntries entries →
        entries_in (esrt_bytes entries) ≡ entries }
    ensures back { (bytes : List ℕ) → IsBytes bytes → first_refusal (esrt_rows bytes) ≡ None →
        esrt_bytes (entries_in bytes) ≡ bytes }
{}

/// The same of a result with any Reserved.
pub fn result_law()
    ensures accepted { (reserved : ℕ) (v : ResultVar) → reserved < 2 ^ 32 → IsResult v →
        first_refusal (result_rows (result_layout reserved v)) ≡ None }
    ensures again { (reserved : ℕ) (v : ResultVar) → reserved < 2 ^ 32 → IsResult v →
        result_fields (result_layout reserved v) ≡ v }
    ensures back { (bytes : List ℕ) → IsBytes bytes → first_refusal (result_rows bytes) ≡ None →
        result_layout (number_at bytes 4 4) (result_fields bytes) ≡ bytes }
{}
