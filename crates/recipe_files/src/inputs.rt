//! The inputs that a recipe names.

ghost use Rattle.std.specs.Prelude.{◌≡◌, [], ◌∷◌, OnOk, IfOk, map, bytes_eq};
ghost use Rattle.std.specs.List.{IsDistinct};
ghost use Rattle.recipe_files.specs.Mentions.{inputs_of, mentioned, payload_name};
ghost use Rattle.recipe_files.specs.Seen.{Sees, seen};

use crate::{Recipe, RecipeBody, RecipeItem};
use cu_base::{Names, NoMemory, Text};
use indexmap::IndexSet;
use std::alloc::Global;

/// Adds a name where it is not there yet.
#[tactic(auto, using(crate::proofs::SeenLemmas::sees_one))]
fn see<'a>(names: &mut IndexSet<&'a str>, name: &'a str) -> Result<(), NoMemory>
    ensures { OnOk result (Sees (seen names.old) (name.now ∷ []) (seen names.new)) }
{
    match names.insert(name) {
        Ok(_) => Ok(()),
        Err(_) => Err(NoMemory),
    }
}

/// Adds each of these names where it is not there yet.
fn see_drivers<'a>(names: &mut IndexSet<&'a str>, drivers: &'a [Text]) -> Result<(), NoMemory>
    ensures { OnOk result (Sees (seen names.old) drivers.now (seen names.new)) }
{
    for driver in drivers {
        see(names, driver.as_str())?;
    }
    Ok(())
}

/// The input that an item names.
fn payload_of(item: &RecipeItem) -> &str
    ensures { result.now ≡ payload_name item.now }
{
    item.payload.as_str()
}

/// Adds the input of each of these items where it is not there yet.
fn see_items<'a>(names: &mut IndexSet<&'a str>, items: &'a [RecipeItem]) -> Result<(), NoMemory>
    ensures { OnOk result (Sees (seen names.old) (map payload_name items.now) (seen names.new)) }
{
    for item in items {
        see(names, payload_of(item))?;
    }
    Ok(())
}

/// Adds each name that a recipe mentions where it is not there yet.
#[tactic(auto, using(crate::proofs::SeenLemmas::sees_both))]
fn see_all<'a>(names: &mut IndexSet<&'a str>, recipe: &'a Recipe) -> Result<(), NoMemory>
    ensures { OnOk result (Sees (seen names.old) (mentioned recipe.now.body) (seen names.new)) }
{
    match &recipe.body {
        RecipeBody::Other(name) => see(names, name.as_str()),
        RecipeBody::Fmp { drivers, items } => {
            see_drivers(names, drivers.as_slice())?;
            see_items(names, items.as_slice())
        }
    }
}

/// The names as texts of their own.
fn texts_of(alloc: Global, names: &[&str]) -> Result<Names, NoMemory>
    ensures { IfOk result (λ texts. texts.items ≡ map (λ name. name.now) names.now) }
{
    let mut texts = Names::new(alloc);
    texts.reserve(names.len())?;
    for name in names {
        texts.push(Text::from_str(alloc, name)?)?;
    }
    Ok(texts)
}

/// The inputs that a recipe names, each once, in order of first mention: the drivers in order and
/// then the payloads of the items in order, or the body of a capsule that is no FMP capsule.
#[tactic(auto, using(crate::proofs::SeenLemmas::inputs_are, crate::proofs::SeenLemmas::distinct_seen))]
pub fn recipe_inputs(alloc: Global, recipe: &Recipe) -> Result<Names, NoMemory>
    ensures value { IfOk result (λ names. names.items ≡ inputs_of recipe.now) }
    ensures distinct { IfOk result (λ names. IsDistinct bytes_eq names.items) }
{
    let mut names = IndexSet::new(alloc);
    see_all(&mut names, recipe)?;
    texts_of(alloc, names.as_slice())
}
