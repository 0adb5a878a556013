//! Recipes read from their texts.

ghost use Rattle.std.specs.Prelude.{◌≡◌, true, None, Some, Ok, IfErr, IfOk, IsTrue};
ghost use Rattle.std.specs.Prelude.{MatchResult, map};
ghost use Rattle.std.specs.List.{list_all};
ghost use Rattle.toml.specs.View.{view, table_view};
ghost use Rattle.recipe_files.specs.Documents.{TellsFault, document, text_says, text_test};
ghost use Rattle.recipe_files.specs.Faults.{Reads};
ghost use Rattle.recipe_files.specs.InputNames.{is_input_name};
ghost use Rattle.recipe_files.specs.RecipeItems.{AreItemsOf};
ghost use Rattle.recipe_files.specs.RecipeTexts.{body_in, body_test, driver_test, drivers_test};
ghost use Rattle.recipe_files.specs.RecipeTexts.{items_test, recipe_in, recipe_test, recipe_text};
ghost use Rattle.recipe_files.specs.RecipeTypes.{body_seen};
ghost use Rattle.recipe_files.specs.Recipes.{IsBodyOf};
ghost use Rattle.recipe_files.specs.Values.{entries_seen, text_of};

use crate::document::{read_document, told};
use crate::faults::{Fault, FileFault, Stop};
use crate::items::read_items;
use crate::keys::Key;
use crate::limits::{MAX_DRIVERS, MAX_ITEMS};
use crate::recipe_values::{bytes_at, input_at, input_of, list_or_none};
use crate::values::{guid_at, number_at};
use crate::{Recipe, RecipeBody, RecipeItems};
use capsule_grammar::is_fmp_guid;
use cu_base::{Names, Text};
use std::alloc::Global;
use toml::value::Array;
use toml::{Table, Value};

/// The driver that an entry of the list names.
#[tactic(auto, unfolding(crate::specs::RecipeTexts::driver_test))]
fn driver_of(entry: &Value) -> Result<&str, Fault>
    ensures { MatchResult result
        (λ name. (driver_test (view entry.now) ≡ None) × (text_of (view entry.now) ≡ name.now)
        × IsTrue (is_input_name name.now))
        (λ fault. driver_test (view entry.now) ≡ Some fault) }
{
    input_of(entry, Key::Drivers)
}

/// The drivers of a list.
#[tactic(auto, using(crate::proofs::RecipeFaults::drivers_test_is, crate::proofs::RecipeFaults::named_more))]
fn read_drivers(alloc: Global, list: &Array) -> Result<Names, Stop>
    ensures { Reads (drivers_test (map view list.now.items))
        (λ drivers. (drivers.items ≡ map text_of (map view list.now.items))
        × IsTrue (list_all is_input_name drivers.items))
        result }
{
    let mut drivers = Names::new(alloc);
    for entry in list {
        drivers.push(Text::from_str(alloc, driver_of(entry)?)?)?;
    }
    Ok(drivers)
}

/// The drivers of a list, and none where there is no list.
#[tactic(auto, unfolding(crate::specs::RecipeTexts::drivers_test))]
fn drivers_of(alloc: Global, list: Option<&Array>) -> Result<Names, Stop>
    ensures { Reads (drivers_test (entries_seen list.entry))
        (λ drivers. (drivers.items ≡ map text_of (entries_seen list.entry))
        × IsTrue (list_all is_input_name drivers.items))
        result }
{
    match list {
        Some(list) => read_drivers(alloc, list),
        None => Ok(Names::new(alloc)),
    }
}

/// The items of a list, and none where there is no list.
#[tactic(auto, unfolding(crate::specs::RecipeTexts::items_test))]
fn items_of(alloc: Global, list: Option<&Array>) -> Result<RecipeItems, Stop>
    ensures { Reads (items_test (entries_seen list.entry)) (AreItemsOf (entries_seen list.entry))
        result }
{
    match list {
        Some(list) => read_items(alloc, list),
        None => Ok(RecipeItems::new(alloc)),
    }
}

/// The body of an FMP capsule in a document.
#[tactic(auto, using(crate::proofs::RecipeFaults::fmp_test_is))]
fn read_fmp(alloc: Global, table: &Table) -> Result<RecipeBody, Stop>
    ensures { Reads (body_test true (table_view table.now))
        (λ body. (body_seen body ≡ body_in true (table_view table.now))
        × IsBodyOf true (body_seen body))
        result }
{
    let driver_list = list_or_none(table, Key::Drivers, MAX_DRIVERS)?;
    let drivers = drivers_of(alloc, driver_list)?;
    let item_list = list_or_none(table, Key::Item, MAX_ITEMS)?;
    let items = items_of(alloc, item_list)?;
    Ok(RecipeBody::Fmp { drivers, items })
}

/// The body in a document, which is that of an FMP capsule exactly where `is_fmp` says so.
#[tactic(auto, unfolding(crate::specs::RecipeTexts::body_test, crate::specs::Tests::key_test))]
fn read_body(alloc: Global, table: &Table, is_fmp: bool) -> Result<RecipeBody, Stop>
    ensures { Reads (body_test is_fmp (table_view table.now))
        (λ body. (body_seen body ≡ body_in is_fmp (table_view table.now))
        × IsBodyOf is_fmp (body_seen body))
        result }
{
    if is_fmp {
        return read_fmp(alloc, table);
    }
    let name = input_at(table, Key::Body)?;
    Ok(RecipeBody::Other(Text::from_str(alloc, name)?))
}

/// The recipe of a document.
#[tactic(auto, using(crate::proofs::RecipeFaults::recipe_test_is), unfolding(crate::specs::RecipeTexts::recipe_in))]
fn read_table(alloc: Global, table: &Table) -> Result<Recipe, Stop>
    ensures { Reads (recipe_test (table_view table.now))
        (λ recipe. recipe ≡ recipe_in (table_view table.now))
        result }
{
    let guid = guid_at(table, Key::CapsuleGuid)?;
    let flags = number_at(table, Key::Flags, 0, u64::from(u32::MAX))? as u32;
    let ext = bytes_at(alloc, table, Key::Ext)?;
    let body = read_body(alloc, table, is_fmp_guid(&guid))?;
    Ok(Recipe {
        guid,
        flags,
        ext,
        body,
    })
}

fn read_text(alloc: Global, bytes: &[u8]) -> Result<Recipe, Stop>
    ensures { Reads (text_test recipe_test (document bytes.now))
        (λ recipe. text_says recipe_test recipe_in (document bytes.now) ≡ Ok recipe)
        result }
{
    let table = read_document(alloc, bytes)?;
    read_table(alloc, &table)
}

/// The recipe of a text. A text that is refused is told as `Bad`, with the first fault in the order
/// of the keys and of the tables, and the plain name of its key: `BadToml` where the bytes are no
/// document that `toml` accepts; `MissingKey`, `WrongKind`, `OutOfRange` and `BadGuid` at a key.
/// Unknown keys are ignored: `body` where the GUID is that of FMP capsules (UEFI 2.10, 23.3.2),
/// `drivers` and `item` where it is another. `Memory` is told where memory ran out.
#[tactic(auto, using(crate::proofs::Documents::told))]
pub fn read_recipe(alloc: Global, bytes: &[u8]) -> Result<Recipe, FileFault>
    ensures ok { IfOk result (λ recipe. recipe_text bytes.now ≡ Ok recipe) }
    ensures refused { IfErr result (TellsFault (recipe_text bytes.now)) }
{
    match read_text(alloc, bytes) {
        Ok(recipe) => Ok(recipe),
        Err(stop) => Err(told(alloc, stop)),
    }
}
