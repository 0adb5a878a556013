ghost use Rattle.std.specs.Prelude.{◌≡◌, ◌≤◌, Some, None, Ok, IfOk, IfErr, MatchResult, length};
ghost use Rattle.std.specs.Prelude.{map};
ghost use Rattle.toml.specs.View.{view, table_view};
ghost use Rattle.recipe_files.specs.Boards.{bank_test, board_in, board_test, board_text, some_test};
ghost use Rattle.recipe_files.specs.Documents.{TellsFault, document, text_says, text_test};
ghost use Rattle.bench_model.specs.Boards.{least_bank, most_capacity};
ghost use Rattle.recipe_files.specs.Faults.{Reads};

use crate::devices::read_devices;
use crate::digests::read_digests;
use crate::document::{read_document, told};
use crate::faults::{BadKind, Fault, FileFault, Stop};
use crate::keys::Key;
use crate::values::{is_two_at, list_at, number_at, number_or};
use bench_model::{
    BANK_BASE, Board, MAX_BANK, MAX_CAPACITIES, MAX_DEVICES, MAX_DIGESTS, MAX_STORE,
    MAX_TWO_BANK_CAPACITIES, MIN_BANK, MIN_STORE, RESULT_ROOM,
};
use std::alloc::Global;
use toml::Table;
use toml::value::Array;

/// The most bytes of all capacities in sum, with two banks a device or one.
fn most_capacity(two_banks: bool) -> u32
    ensures { result ≡ most_capacity two_banks }
{
    if two_banks {
        MAX_TWO_BANK_CAPACITIES
    } else {
        MAX_CAPACITIES
    }
}

/// Whether a list of devices has one.
#[tactic(auto, unfolding(crate::specs::Boards::some_test))]
fn check_some(list: &Array) -> Result<(), Fault>
    ensures { MatchResult result
        (λ _. (some_test (map view list.now.items) ≡ None) × (1 ≤ length list.now.items))
        (λ fault. some_test (map view list.now.items) ≡ Some fault) }
{
    if list.is_empty() {
        return Err(Fault {
            kind: BadKind::MissingKey,
            key: Key::Device,
        });
    }
    Ok(())
}

/// Whether a bank has room for the results up to `result_max`.
#[tactic(auto, unfolding(crate::specs::Boards::bank_test))]
fn check_bank(bank: u32, result_max: u16) -> Result<(), Fault>
    ensures { MatchResult result
        (λ _. (bank_test bank result_max ≡ None) × (least_bank result_max ≤ bank))
        (λ fault. bank_test bank result_max ≡ Some fault) }
{
    if bank < BANK_BASE + RESULT_ROOM * (u32::from(result_max) + 1) {
        return Err(Fault {
            kind: BadKind::BankTooSmall,
            key: Key::Bank,
        });
    }
    Ok(())
}

/// The board of a document.
#[tactic(auto, using(crate::proofs::FaultLemmas::board_test_is), unfolding(crate::specs::Boards::board_in))]
fn read_table(alloc: Global, table: &Table) -> Result<Board, Stop>
    ensures { Reads (board_test (table_view table.now))
        (λ board. board ≡ board_in (table_view table.now))
        result }
{
    let bank = number_at(table, Key::Bank, u64::from(MIN_BANK), u64::from(MAX_BANK))? as u32;
    let store = number_or(
        table,
        Key::Store,
        u64::from(MIN_STORE),
        u64::from(MAX_STORE),
        u64::from(MAX_STORE),
    )? as u32;
    let two_banks = is_two_at(table, Key::Layout)?;
    let result_max = number_at(table, Key::ResultMax, 0, u64::from(u16::MAX))? as u16;
    let digests = read_digests(alloc, list_at(table, Key::Digests, MAX_DIGESTS)?)?;
    let list = list_at(table, Key::Device, MAX_DEVICES)?;
    check_some(list)?;
    let devices = read_devices(alloc, list, most_capacity(two_banks))?;
    check_bank(bank, result_max)?;
    Ok(Board::new(bank, store, two_banks, result_max, digests, devices))
}

fn read_text(alloc: Global, bytes: &[u8]) -> Result<Board, Stop>
    ensures { Reads (text_test board_test (document bytes.now))
        (λ board. text_says board_test board_in (document bytes.now) ≡ Ok board)
        result }
{
    let table = read_document(alloc, bytes)?;
    read_table(alloc, &table)
}

/// The board of a text. A text that is refused is told as `Bad`, with the first fault in the order
/// of the keys and of the tables, and the plain name of its key: `BadToml` where the bytes are no
/// document that `toml` accepts; `MissingKey`, `WrongKind`, `OutOfRange` and `BadGuid` at a key;
/// `Repeated` at the name or the instance of a later table; `BankTooSmall` after all others.
/// Unknown keys are ignored. `Memory` is told where memory ran out.
#[tactic(auto, using(crate::proofs::Documents::told))]
pub fn read_board(alloc: Global, bytes: &[u8]) -> Result<Board, FileFault>
    ensures ok { IfOk result (λ board. board_text bytes.now ≡ Ok board) }
    ensures refused { IfErr result (TellsFault (board_text bytes.now)) }
{
    match read_text(alloc, bytes) {
        Ok(board) => Ok(board),
        Err(stop) => Err(told(alloc, stop)),
    }
}
