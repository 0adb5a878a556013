//! What holds of records, of banks and of the stores that they are, whatever their bytes.

ghost use Rattle.std.specs.Prelude.{◌≡◌, ◌≢◌, ◌+◌, ◌^◌, ◌<◌, ℕ, List, [], ◌∷◌, ◌++◌, length, take};
ghost use Rattle.std.specs.Prelude.{get_or, All, IsTrue, false, Option};
ghost use Rattle.var_log.specs.declared.change.Change.{Change};
ghost use Rattle.var_log.specs.Banks.{empty_bank, empty_store, end_of, is_open, store_in, store_of};
ghost use Rattle.var_log.specs.Changes.{is_change};
ghost use Rattle.var_log.specs.Records.{body_of, changes_in, first_record, first_record_bytes};
ghost use Rattle.var_log.specs.Records.{AreBatches, entries_in, numbered, record_bytes, spelled};

use crate::limits::{CLOSED_GATE, MAX_CHANGES, MAX_DATA, MAX_NAME, MAX_RECORD, OPEN_GATE};

/// The limits of a variable, of a batch and of a record.
pub fn limits_are()
    ensures name { MAX_NAME ≡ 64 }
    ensures data { MAX_DATA ≡ 16384 }
    ensures changes { MAX_CHANGES ≡ 65535 }
    ensures record { MAX_RECORD ≡ 1048576 }
{}

/// A body that is written is read again.
pub fn bodies_read_back()
    ensures { (changes : List Change) → All (λ c. IsTrue (is_change c)) changes
        → length changes < 2 ^ 16 → changes_in (body_of changes) ≡ Some changes }
{}

/// The first record of a fresh board: OsIndications with bit 0x04, as number 1.
pub fn first_record_is()
    ensures { record_bytes 2 1 (first_record ∷ []) ≡ first_record_bytes }
{}

/// Batches that are spelled one behind another under rising numbers, and then a closed gate, are
/// the records of a log.
pub fn spelled_batches_are_the_log()
    ensures { (batches : List (List Change)) (number more : ℕ) (before : Option ℕ) (rest : List ℕ)
        → AreBatches before number batches
        → entries_in (length batches + more) 2 before
        (spelled number batches ++ CLOSED_GATE ∷ rest) ≡ numbered number batches }
{}

/// What stands behind the end of a log does not matter, while no open gate stands there.
pub fn bytes_behind_the_end_do_not_matter()
    ensures { (old new : List ℕ) → length new ≡ length old
        → take (end_of old) new ≡ take (end_of old) old → end_of old < length old
        → get_or new (end_of old) 0 ≢ OPEN_GATE → store_in new ≡ store_in old }
{}

/// Two banks without an open header are no store.
pub fn shut_banks_are_no_store()
    ensures { (banks : ℕ → List ℕ) → is_open (banks 0) ≡ false → is_open (banks 1) ≡ false
        → store_of banks ≡ None }
{}

/// A bank that was formatted, beside one that is not open, is the empty store.
pub fn formatted_banks_are_empty()
    ensures { (banks : ℕ → List ℕ) (rest : List ℕ)
        → banks 0 ≡ OPEN_GATE ∷ (empty_bank ++ rest) → is_open (banks 1) ≡ false
        → store_of banks ≡ Some empty_store }
{}
