ghost use Rattle.std.specs.Prelude.{◌≡◌, ◌≤◌, Some, None, MatchOption, MatchResult, IsTrue, map};
ghost use Rattle.std.specs.Prelude.{length};
ghost use Rattle.toml.specs.Data.{get_member};
ghost use Rattle.toml.specs.View.{view, table_view};
ghost use Rattle.cu_base.specs.Refusals.{first_refusal};
ghost use Rattle.bench_model.specs.Names.{is_device_name};
ghost use Rattle.recipe_files.specs.Keys.{key_name, values_of};
ghost use Rattle.recipe_files.specs.Keys.{guids, layouts, lists, names, numbers, optional};
ghost use Rattle.recipe_files.specs.Tests.{key_test, value_rows};
ghost use Rattle.recipe_files.specs.Values.{entries_in, entries_of, guid_in, guid_of};
ghost use Rattle.recipe_files.specs.Values.{is_two, number_in, number_of, number_or, text_in};
ghost use Rattle.recipe_files.specs.Values.{text_of};

use crate::faults::{BadKind, Fault};
use crate::keys::{Key, key_name};
use bench_model::is_device_name;
use cu_base::Guid;
use toml::value::Array;
use toml::{Table, Value};

/// The number at a key that takes the integers from `low` to `high`.
#[tactic(auto, unfolding(crate::specs::Tests::key_test, crate::specs::Values::number_in))]
pub(crate) fn number_at(table: &Table, key: Key, low: u64, high: u64) -> Result<u64, Fault>
    requires { values_of key ≡ numbers low high }
    ensures { MatchResult result
        (λ n. (key_test key (table_view table.now) ≡ None)
        × (number_in key (table_view table.now) ≡ n) × (low ≤ n) × (n ≤ high))
        (λ fault. key_test key (table_view table.now) ≡ Some fault) }
{
    number_of(value_at(table, key)?, key, low, high)
}

/// The number at a key that may be absent, and takes the integers from `low` to `high`; the default
/// where it is absent.
#[tactic(auto, unfolding(crate::specs::Tests::key_test, crate::specs::Values::number_or))]
pub(crate) fn number_or(
    table: &Table,
    key: Key,
    low: u64,
    high: u64,
    default: u64,
) -> Result<u64, Fault>
    requires values { values_of key ≡ optional (numbers low high) }
    requires default_low { low ≤ default }
    requires default_high { default ≤ high }
    ensures { MatchResult result
        (λ n. (key_test key (table_view table.now) ≡ None)
        × (number_or default key (table_view table.now) ≡ n) × (low ≤ n) × (n ≤ high))
        (λ fault. key_test key (table_view table.now) ≡ Some fault) }
{
    let Some(value) = found_at(table, key) else {
        return Ok(default);
    };
    number_of(value, key, low, high)
}

/// Whether the layout at a key that may be absent is that of devices with two banks.
#[tactic(auto, unfolding(crate::specs::Tests::key_test, crate::specs::Values::text_in))]
pub(crate) fn is_two_at(table: &Table, key: Key) -> Result<bool, Fault>
    requires { values_of key ≡ optional layouts }
    ensures { MatchResult result
        (λ two. (key_test key (table_view table.now) ≡ None)
        × (is_two (text_in key (table_view table.now)) ≡ two))
        (λ fault. key_test key (table_view table.now) ≡ Some fault) }
{
    let Some(value) = found_at(table, key) else {
        return Ok(false);
    };
    let kind = match value.as_str() {
        Some("one") => return Ok(false),
        Some("two") => return Ok(true),
        Some(_) => BadKind::OutOfRange,
        None => BadKind::WrongKind,
    };
    Err(Fault { kind, key })
}

/// The name at a key that takes the name of a device.
#[tactic(auto, unfolding(crate::specs::Tests::key_test, crate::specs::Values::text_in))]
pub(crate) fn name_at<'a>(table: &'a Table, key: Key) -> Result<&'a str, Fault>
    requires { values_of key ≡ names }
    ensures { MatchResult result
        (λ text. (key_test key (table_view table.now) ≡ None)
        × (text_in key (table_view table.now) ≡ text.now) × IsTrue (is_device_name text.now))
        (λ fault. key_test key (table_view table.now) ≡ Some fault) }
{
    let value = value_at(table, key)?;
    match value.as_str() {
        Some(text) if is_device_name(text) => Ok(text),
        Some(_) => Err(Fault {
            kind: BadKind::OutOfRange,
            key,
        }),
        None => Err(Fault {
            kind: BadKind::WrongKind,
            key,
        }),
    }
}

/// The GUID at a key that takes one.
#[tactic(auto, unfolding(crate::specs::Tests::key_test, crate::specs::Values::guid_in))]
pub(crate) fn guid_at(table: &Table, key: Key) -> Result<Guid, Fault>
    requires { values_of key ≡ guids }
    ensures { MatchResult result
        (λ guid. (key_test key (table_view table.now) ≡ None)
        × (guid_in key (table_view table.now) ≡ guid))
        (λ fault. key_test key (table_view table.now) ≡ Some fault) }
{
    guid_of(value_at(table, key)?, key)
}

/// The GUID that the text of a value at a key shows.
pub(crate) fn guid_of(value: &Value, key: Key) -> Result<Guid, Fault>
    ensures { MatchResult result
        (λ guid. (first_refusal (value_rows guids key (view value.now)) ≡ None)
        × (guid_of (view value.now) ≡ guid))
        (λ fault. first_refusal (value_rows guids key (view value.now)) ≡ Some fault) }
{
    match value.as_str() {
        Some(text) => match Guid::from_text(text) {
            Ok(guid) => Ok(guid),
            Err(_) => Err(Fault {
                kind: BadKind::BadGuid,
                key,
            }),
        },
        None => Err(Fault {
            kind: BadKind::WrongKind,
            key,
        }),
    }
}

/// The list at a key that takes one of at most so many entries.
#[tactic(auto, unfolding(crate::specs::Tests::key_test, crate::specs::Values::entries_in))]
pub(crate) fn list_at<'a>(table: &'a Table, key: Key, most: usize) -> Result<&'a Array, Fault>
    requires { values_of key ≡ lists most }
    ensures { MatchResult result
        (λ list. (key_test key (table_view table.now) ≡ None)
        × (entries_in key (table_view table.now) ≡ map view list.now.items)
        × (length list.now.items ≤ most))
        (λ fault. key_test key (table_view table.now) ≡ Some fault) }
{
    list_of(value_at(table, key)?, key, most)
}

/// The list that a value at a key is, of at most so many entries.
#[tactic(auto, using(crate::proofs::Entries::entries_view, crate::proofs::Entries::count_view))]
pub(crate) fn list_of(value: &Value, key: Key, most: usize) -> Result<&Array, Fault>
    ensures { MatchResult result
        (λ list. (first_refusal (value_rows (lists most) key (view value.now)) ≡ None)
        × (entries_of (view value.now) ≡ map view list.now.items)
        × (length list.now.items ≤ most))
        (λ fault. first_refusal (value_rows (lists most) key (view value.now)) ≡ Some fault) }
{
    match value.as_array() {
        Some(list) if list.len() <= most => Ok(list),
        Some(_) => Err(Fault {
            kind: BadKind::OutOfRange,
            key,
        }),
        None => Err(Fault {
            kind: BadKind::WrongKind,
            key,
        }),
    }
}

/// The value at a key that has to be there.
pub(crate) fn value_at<'a>(table: &'a Table, key: Key) -> Result<&'a Value, Fault>
    ensures { MatchResult result
        (λ v. get_member (key_name key) (table_view table.now) ≡ Some (view v.now))
        (λ f. (get_member (key_name key) (table_view table.now) ≡ None)
        × (f ≡ record { kind = BadKind.MissingKey; key = key })) }
{
    found_at(table, key).ok_or(Fault {
        kind: BadKind::MissingKey,
        key,
    })
}

/// The value at a key, where it is there.
pub(crate) fn found_at<'a>(table: &'a Table, key: Key) -> Option<&'a Value>
    ensures { MatchOption result
        (get_member (key_name key) (table_view table.now) ≡ None)
        (λ v. get_member (key_name key) (table_view table.now) ≡ Some (view v.now)) }
{
    match table.get(key_name(key)) {
        Some(value) => Some(value),
        None => None,
    }
}

/// The number of a value that is an integer from the first to the second.
fn number_of(value: &Value, key: Key, low: u64, high: u64) -> Result<u64, Fault>
    ensures { MatchResult result
        (λ n. (first_refusal (value_rows (numbers low high) key (view value.now)) ≡ None)
        × (number_of (view value.now) ≡ n) × (low ≤ n) × (n ≤ high))
        (λ fault. first_refusal (value_rows (numbers low high) key (view value.now))
        ≡ Some fault) }
{
    let Some(whole) = value.as_integer() else {
        return Err(Fault {
            kind: BadKind::WrongKind,
            key,
        });
    };
    match u64::try_from(whole) {
        Ok(n) if low <= n && n <= high => Ok(n),
        _ => Err(Fault {
            kind: BadKind::OutOfRange,
            key,
        }),
    }
}
