//! The items of a recipe's text.

ghost use Rattle.std.specs.Prelude.{◌≡◌, ◌≤◌, Some, None, IfOk, IsTrue, MatchResult, map};
ghost use Rattle.std.specs.Prelude.{is_some};
ghost use Rattle.toml.specs.View.{view, table_view};
ghost use Rattle.recipe_files.specs.Faults.{Reads};
ghost use Rattle.recipe_files.specs.RecipeItems.{AreItemsOf, IsFirmware, IsSigning, IsTarget};
ghost use Rattle.recipe_files.specs.RecipeItems.{firmware_test, signing_test};
ghost use Rattle.recipe_files.specs.RecipeItems.{header_test, instance_test, item_entry_test};
ghost use Rattle.recipe_files.specs.RecipeItems.{item_in, item_of, item_test, target_test};
ghost use Rattle.recipe_files.specs.RecipeTexts.{items_test};
ghost use Rattle.recipe_files.specs.Recipes.{IsItem, keeps_header_rule, keeps_instance_rule};
ghost use Rattle.recipe_files.specs.Values.{has_key, number_in, truth_in};

use crate::faults::{BadKind, Fault, Stop};
use crate::keys::Key;
use crate::limits::{MAX_HEADER, MAX_MONOTONIC, MIN_HEADER};
use crate::recipe_values::{
    bytes_at, guid_or_zeros, has_key, input_at, is_true_at, section_at, truth_at,
};
use crate::values::{guid_at, number_at, number_or};
use crate::{RecipeItem, RecipeItems};
use bench_model::MAX_INSTANCE;
use cu_base::{Blob, Guid, Text};
use std::alloc::Global;
use toml::value::Array;
use toml::{Table, Value};

/// For which device an item is, and by which version of the image header.
#[derive(Clone, Copy)]
struct Target {
    header: u32,
    type_id: Guid,
    index: u8,
    instance: u64,
}

/// What the firmware of an item is.
#[derive(Drop)]
struct Firmware {
    auth: bool,
    fw_version: u32,
    lowest: u32,
    payload: Text,
}

/// The authentication data of an item.
#[derive(Drop)]
struct Signing {
    monotonic: u64,
    cert_type: Guid,
    cert: Blob,
}

/// Whether a table keeps the rule of its version of the image header: 1 or 2 needs authentication
/// data and no section.
#[tactic(auto, unfolding(crate::specs::RecipeItems::header_test))]
fn check_header(table: &Table, header: u32) -> Result<(), Fault>
    requires { number_in Key.Header (table_view table.now) ≡ header }
    ensures { MatchResult result
        (λ _. (header_test (table_view table.now) ≡ None)
        × IsTrue (keeps_header_rule header (truth_in Key.Auth (table_view table.now))
        (has_key Key.Dep (table_view table.now))))
        (λ fault. header_test (table_view table.now) ≡ Some fault) }
{
    let auth = is_true_at(table, Key::Auth);
    let dep = has_key(table, Key::Dep);
    if header == MAX_HEADER || (auth && !dep) {
        return Ok(());
    }
    Err(Fault {
        kind: BadKind::OutOfRange,
        key: Key::Header,
    })
}

/// Whether a table keeps the rule of the first version of the image header: it has no hardware
/// instance.
#[tactic(auto, unfolding(crate::specs::RecipeItems::instance_test))]
fn check_instance(table: &Table, header: u32, instance: u64) -> Result<(), Fault>
    requires header { number_in Key.Header (table_view table.now) ≡ header }
    requires instance { number_in Key.Instance (table_view table.now) ≡ instance }
    ensures { MatchResult result
        (λ _. (instance_test (table_view table.now) ≡ None)
        × IsTrue (keeps_instance_rule header instance))
        (λ fault. instance_test (table_view table.now) ≡ Some fault) }
{
    if header != MIN_HEADER || instance == 0 {
        return Ok(());
    }
    Err(Fault {
        kind: BadKind::OutOfRange,
        key: Key::Instance,
    })
}

/// For which device the item of a table is.
#[tactic(auto, using(crate::proofs::RecipeFaults::target_test_is))]
fn target_at(table: &Table) -> Result<Target, Fault>
    ensures { MatchResult result
        (λ target. IsTarget (table_view table.now) target)
        (λ fault. target_test (table_view table.now) ≡ Some fault) }
{
    let header = number_at(
        table,
        Key::Header,
        u64::from(MIN_HEADER),
        u64::from(MAX_HEADER),
    )? as u32;
    check_header(table, header)?;
    let type_id = guid_at(table, Key::TypeId)?;
    let index = number_at(table, Key::Index, 0, u64::from(u8::MAX))? as u8;
    let instance = number_at(table, Key::Instance, 0, MAX_INSTANCE)?;
    check_instance(table, header, instance)?;
    Ok(Target {
        header,
        type_id,
        index,
        instance,
    })
}

/// What the firmware of the item of a table is.
#[tactic(auto, using(crate::proofs::RecipeFaults::firmware_test_is))]
fn firmware_at(alloc: Global, table: &Table) -> Result<Firmware, Stop>
    ensures { Reads (firmware_test (table_view table.now)) (IsFirmware (table_view table.now))
        result }
{
    let auth = truth_at(table, Key::Auth)?;
    let fw_version = number_at(table, Key::FwVersion, 0, u64::from(u32::MAX))? as u32;
    let lowest = number_at(table, Key::Lowest, 0, u64::from(u32::MAX))? as u32;
    let payload = input_at(table, Key::Payload)?;
    Ok(Firmware {
        auth,
        fw_version,
        lowest,
        payload: Text::from_str(alloc, payload)?,
    })
}

/// The authentication data of the item of a table.
#[tactic(auto, using(crate::proofs::RecipeFaults::signing_test_is))]
fn signing_at(alloc: Global, table: &Table) -> Result<Signing, Stop>
    ensures { Reads (signing_test (table_view table.now)) (IsSigning (table_view table.now))
        result }
{
    let monotonic = number_or(table, Key::Monotonic, 0, MAX_MONOTONIC, 0)?;
    let cert_type = guid_or_zeros(table, Key::CertType)?;
    let cert = bytes_at(alloc, table, Key::Cert)?;
    Ok(Signing {
        monotonic,
        cert_type,
        cert,
    })
}

/// The item of a table.
#[tactic(auto, using(crate::proofs::RecipeFaults::item_test_is), unfolding(crate::specs::RecipeItems::item_in))]
fn read_item(alloc: Global, table: &Table) -> Result<RecipeItem, Stop>
    ensures { Reads (item_test (table_view table.now))
        (λ item. (item ≡ item_in (table_view table.now)) × IsItem item)
        result }
{
    let target = target_at(table)?;
    let firmware = firmware_at(alloc, table)?;
    let vendor = bytes_at(alloc, table, Key::Vendor)?;
    let signing = signing_at(alloc, table)?;
    let dep = section_at(alloc, table, Key::Dep)?;
    Ok(RecipeItem {
        header: target.header,
        type_id: target.type_id,
        index: target.index,
        instance: target.instance,
        auth: firmware.auth,
        fw_version: firmware.fw_version,
        lowest: firmware.lowest,
        payload: firmware.payload,
        vendor,
        monotonic: signing.monotonic,
        cert_type: signing.cert_type,
        cert: signing.cert,
        dep,
    })
}

/// The item of an entry of the list.
#[tactic(auto, unfolding(crate::specs::RecipeItems::item_entry_test, crate::specs::RecipeItems::item_test))]
fn read_entry(alloc: Global, entry: &Value) -> Result<RecipeItem, Stop>
    ensures { Reads (item_entry_test (view entry.now))
        (λ item. (item ≡ item_of (view entry.now)) × IsItem item)
        result }
{
    match entry.as_table() {
        Some(table) => read_item(alloc, table),
        None => Err(Stop::Bad(Fault {
            kind: BadKind::WrongKind,
            key: Key::Item,
        })),
    }
}

/// The items of a list.
#[tactic(auto, using(crate::proofs::RecipeFaults::items_test_is, crate::proofs::RecipeFaults::items_more))]
pub(crate) fn read_items(alloc: Global, list: &Array) -> Result<RecipeItems, Stop>
    ensures { Reads (items_test (map view list.now.items))
        (AreItemsOf (map view list.now.items))
        result }
{
    let mut items = RecipeItems::new(alloc);
    for entry in list {
        let item = read_entry(alloc, entry)?;
        items.push(item)?;
    }
    Ok(items)
}
