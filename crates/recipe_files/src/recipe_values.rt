//! The values of a recipe's keys.

ghost use Rattle.std.specs.Prelude.{◌≡◌, ◌≤◌, Some, None, MatchResult, IsTrue, IfSome, length};
ghost use Rattle.toml.specs.View.{view, table_view};
ghost use Rattle.cu_base.specs.Refusals.{first_refusal};
ghost use Rattle.image_parts.specs.Section.{IsOneSection};
ghost use Rattle.recipe_files.specs.Faults.{Reads};
ghost use Rattle.recipe_files.specs.InputNames.{is_input_name};
ghost use Rattle.recipe_files.specs.Keys.{guids, hexes, inputs, lists, optional, sections, truths};
ghost use Rattle.recipe_files.specs.Keys.{values_of};
ghost use Rattle.recipe_files.specs.Tests.{key_test, value_rows};
ghost use Rattle.recipe_files.specs.Values.{bytes_in, bytes_or_none, entries_in, guid_in, has_key};
ghost use Rattle.recipe_files.specs.Values.{entries_seen, hex_of, text_in, text_of, truth_in};

use crate::faults::{BadKind, Fault, Stop};
use crate::hexes::{is_section, read_hex};
use crate::input_names::is_input_name;
use crate::keys::Key;
use crate::values::{found_at, guid_of, list_of, value_at};
use cu_base::{Blob, Guid};
use std::alloc::Global;
use toml::value::Array;
use toml::{Table, Value};

/// The name of an input that a value is, which stands at a key or in its list.
pub(crate) fn input_of(value: &Value, key: Key) -> Result<&str, Fault>
    ensures { MatchResult result
        (λ text. (first_refusal (value_rows inputs key (view value.now)) ≡ None)
        × (text_of (view value.now) ≡ text.now) × IsTrue (is_input_name text.now))
        (λ fault. first_refusal (value_rows inputs key (view value.now)) ≡ Some fault) }
{
    match value.as_str() {
        Some(text) if is_input_name(text) => Ok(text),
        Some(_) => Err(Fault {
            kind: BadKind::OutOfRange,
            key,
        }),
        None => Err(Fault {
            kind: BadKind::WrongKind,
            key,
        }),
    }
}

/// The name at a key that takes the name of an input.
#[tactic(auto, unfolding(crate::specs::Tests::key_test, crate::specs::Values::text_in))]
pub(crate) fn input_at<'a>(table: &'a Table, key: Key) -> Result<&'a str, Fault>
    requires { values_of key ≡ inputs }
    ensures { MatchResult result
        (λ text. (key_test key (table_view table.now) ≡ None)
        × (text_in key (table_view table.now) ≡ text.now) × IsTrue (is_input_name text.now))
        (λ fault. key_test key (table_view table.now) ≡ Some fault) }
{
    let value = value_at(table, key)?;
    input_of(value, key)
}

/// Whether the value at a key is there, and is the truth value true.
#[tactic(auto, unfolding(crate::specs::Values::truth_in))]
pub(crate) fn is_true_at(table: &Table, key: Key) -> bool
    ensures { result ≡ truth_in key (table_view table.now) }
{
    let Some(value) = found_at(table, key) else {
        return false;
    };
    value.as_bool() == Some(true)
}

/// Whether a key is there.
pub(crate) fn has_key(table: &Table, key: Key) -> bool
    ensures { result ≡ has_key key (table_view table.now) }
{
    found_at(table, key).is_some()
}

/// The truth value at a key that takes one.
#[tactic(auto, unfolding(crate::specs::Tests::key_test, crate::specs::Values::truth_in))]
pub(crate) fn truth_at(table: &Table, key: Key) -> Result<bool, Fault>
    requires { values_of key ≡ truths }
    ensures { MatchResult result
        (λ truth. (key_test key (table_view table.now) ≡ None)
        × (truth_in key (table_view table.now) ≡ truth))
        (λ fault. key_test key (table_view table.now) ≡ Some fault) }
{
    match value_at(table, key)?.as_bool() {
        Some(truth) => Ok(truth),
        None => Err(Fault {
            kind: BadKind::WrongKind,
            key,
        }),
    }
}

/// The GUID at a key that may be absent; that of zeros where it is.
#[tactic(auto, unfolding(crate::specs::Tests::key_test, crate::specs::Values::guid_in))]
pub(crate) fn guid_or_zeros(table: &Table, key: Key) -> Result<Guid, Fault>
    requires { values_of key ≡ optional guids }
    ensures { MatchResult result
        (λ guid. (key_test key (table_view table.now) ≡ None)
        × (guid_in key (table_view table.now) ≡ guid))
        (λ fault. key_test key (table_view table.now) ≡ Some fault) }
{
    let Some(value) = found_at(table, key) else {
        return Ok(Guid { bytes: [0; 16] });
    };
    guid_of(value, key)
}

/// The list at a key that may be absent, and takes one of at most so many entries.
#[tactic(auto, unfolding(crate::specs::Tests::key_test, crate::specs::Values::entries_in))]
pub(crate) fn list_or_none<'a>(
    table: &'a Table,
    key: Key,
    most: usize,
) -> Result<Option<&'a Array>, Fault>
    requires { values_of key ≡ optional (lists most) }
    ensures { MatchResult result
        (λ list. (key_test key (table_view table.now) ≡ None)
        × (entries_in key (table_view table.now) ≡ entries_seen list)
        × (length (entries_seen list) ≤ most))
        (λ fault. key_test key (table_view table.now) ≡ Some fault) }
{
    let Some(value) = found_at(table, key) else {
        return Ok(None);
    };
    Ok(Some(list_of(value, key, most)?))
}

/// The bytes of a text of hexadecimal digits, which stands at a key.
fn hex_of(alloc: Global, value: &Value, key: Key) -> Result<Blob, Stop>
    ensures { Reads (first_refusal (value_rows hexes key (view value.now)))
        (λ bytes. hex_of (view value.now) ≡ bytes) result }
{
    let Some(text) = value.as_str() else {
        return Err(Stop::Bad(Fault {
            kind: BadKind::WrongKind,
            key,
        }));
    };
    match read_hex(alloc, text)? {
        Some(bytes) => Ok(bytes),
        None => Err(Stop::Bad(Fault {
            kind: BadKind::OutOfRange,
            key,
        })),
    }
}

/// The bytes at a key that may be absent, and takes hexadecimal digits; none where it is.
#[tactic(auto, unfolding(crate::specs::Tests::key_test, crate::specs::Values::bytes_in))]
pub(crate) fn bytes_at(alloc: Global, table: &Table, key: Key) -> Result<Blob, Stop>
    requires { values_of key ≡ optional hexes }
    ensures { Reads (key_test key (table_view table.now))
        (λ bytes. bytes_in key (table_view table.now) ≡ bytes) result }
{
    let Some(value) = found_at(table, key) else {
        return Ok(Blob::new(alloc));
    };
    hex_of(alloc, value, key)
}

/// The dependency section that a text of hexadecimal digits shows, which stands at a key.
#[tactic(auto, using(crate::proofs::HexLemmas::are_bytes, crate::proofs::SectionLemmas::section_is))]
fn section_of(alloc: Global, value: &Value, key: Key) -> Result<Blob, Stop>
    ensures { Reads (first_refusal (value_rows sections key (view value.now)))
        (λ bytes. (hex_of (view value.now) ≡ bytes) × IsOneSection bytes) result }
{
    let Some(text) = value.as_str() else {
        return Err(Stop::Bad(Fault {
            kind: BadKind::WrongKind,
            key,
        }));
    };
    let refused = Stop::Bad(Fault {
        kind: BadKind::OutOfRange,
        key,
    });
    let Some(bytes) = read_hex(alloc, text)? else {
        return Err(refused);
    };
    if is_section(alloc, bytes.as_slice())? {
        Ok(bytes)
    } else {
        Err(refused)
    }
}

/// The dependency section at a key that may be absent, and takes hexadecimal digits.
#[tactic(auto, unfolding(crate::specs::Tests::key_test, crate::specs::Values::bytes_or_none))]
pub(crate) fn section_at(alloc: Global, table: &Table, key: Key) -> Result<Option<Blob>, Stop>
    requires { values_of key ≡ optional sections }
    ensures { Reads (key_test key (table_view table.now))
        (λ dep. (bytes_or_none key (table_view table.now) ≡ dep) × IfSome dep IsOneSection)
        result }
{
    let Some(value) = found_at(table, key) else {
        return Ok(None);
    };
    Ok(Some(section_of(alloc, value, key)?))
}
