//! Capsules made of recipes.

ghost use Rattle.std.specs.Prelude.{◌≡◌, ◌≤◌, ◌<◌, ◌^◌, ◌+◌, ◌++◌, true, false, OnOk, IfOk, IsTrue};
ghost use Rattle.std.specs.Prelude.{IsErrOf, MatchResult, length, map};
ghost use Rattle.std.specs.List.{concat};
ghost use Rattle.capsule_grammar.specs.Fits.{fits, is_sized};
ghost use Rattle.capsule_grammar.specs.Spelling.{body_bytes, fmp_bytes, image_bytes};
ghost use Rattle.recipe_files.specs.Builds.{body_of, capsule_of, contents_of, drivers_of, fmp_of};
ghost use Rattle.recipe_files.specs.Builds.{image_of};
ghost use Rattle.recipe_files.specs.RecipeTypes.{body_seen};
ghost use Rattle.recipe_files.specs.Room.{found};

use crate::image::build_image;
use crate::index::{find, index_of};
use crate::limits::MAX_ITEMS;
use crate::room::{check_size, driver};
use crate::{BuildFault, Recipe, RecipeBody, RecipeItem};
use capsule_grammar::{Body, Capsule, FmpBody, Images};
use cu_base::{Blob, Blobs, MAX_CAPSULE_BYTES, NoMemory, Text};
use cu_io::Loaded;
use std::alloc::Global;
use std::collections::HashMap;

/// The drivers, which stand before so many payload items.
fn build_drivers<'a>(
    alloc: Global,
    index: &HashMap<&'a str, &'a [u8]>,
    drivers: &[Text],
    later: usize,
) -> Result<Blobs, NoMemory>
    requires { later ≤ MAX_ITEMS }
    ensures { IfOk result (λ blobs. blobs.items
        ≡ drivers_of later (map (found index.now) drivers.now)) }
{
    let mut blobs = Blobs::new(alloc);
    blobs.reserve(drivers.len())?;
    let mut behind = drivers.len() + later;
    for name in drivers {
        behind -= 1;
        blobs.push(Blob::from_slice(alloc, driver(index, name.as_str(), 0 < behind))?)?;
    }
    Ok(blobs)
}

/// The image items of these items.
fn build_images<'a>(
    alloc: Global,
    index: &HashMap<&'a str, &'a [u8]>,
    items: &[RecipeItem],
) -> Result<Images, NoMemory>
    requires { length (concat (map image_bytes (map (image_of (found index.now)) items.now)))
        ≤ MAX_CAPSULE_BYTES }
    ensures { IfOk result (λ images. images.items ≡ map (image_of (found index.now)) items.now) }
{
    let mut images = Images::new(alloc);
    images.reserve(items.len())?;
    for item in items {
        let image = build_image(alloc, index, item)?;
        images.push(image)?;
    }
    Ok(images)
}

/// The body of an FMP capsule.
#[tactic(auto, using(crate::proofs::BuildLemmas::fmp_size))]
fn build_fmp<'a>(
    alloc: Global,
    index: &HashMap<&'a str, &'a [u8]>,
    drivers: &[Text],
    items: &[RecipeItem],
) -> Result<FmpBody, NoMemory>
    requires items { length items.now ≤ MAX_ITEMS }
    requires sized { length (fmp_bytes (fmp_of (found index.now) drivers.now items.now))
        ≤ MAX_CAPSULE_BYTES }
    ensures { IfOk result (λ body. body ≡ fmp_of (found index.now) drivers.now items.now) }
{
    Ok(FmpBody {
        lead: Blob::new(alloc),
        drivers: build_drivers(alloc, index, drivers, items.len())?,
        images: build_images(alloc, index, items)?,
    })
}

/// The body of the capsule.
fn build_body<'a>(
    alloc: Global,
    index: &HashMap<&'a str, &'a [u8]>,
    recipe: &Recipe,
) -> Result<Body, NoMemory>
    requires { is_sized (capsule_of (found index.now) recipe.now) ≡ true }
    ensures { IfOk result (λ body. body ≡ body_of (found index.now) recipe.now.body) }
{
    let _guid = &recipe.guid;
    match &recipe.body {
        RecipeBody::Other(name) => {
            Ok(Body::Other(Blob::from_slice(alloc, find(index, name.as_str()))?))
        }
        RecipeBody::Fmp { drivers, items } => {
            Ok(Body::Fmp(build_fmp(alloc, index, drivers.as_slice(), items.as_slice())?))
        }
    }
}

/// The capsule of a recipe, which is known to be short enough.
fn make<'a>(
    alloc: Global,
    index: &HashMap<&'a str, &'a [u8]>,
    recipe: &Recipe,
) -> Result<Capsule, NoMemory>
    requires { is_sized (capsule_of (found index.now) recipe.now) ≡ true }
    ensures value { IfOk result (λ capsule. capsule ≡ capsule_of (found index.now) recipe.now) }
    ensures rule { IfOk result (λ capsule. IsTrue (fits capsule)) }
{
    let body = build_body(alloc, index, recipe)?;
    Ok(Capsule {
        guid: recipe.guid,
        flags: recipe.flags,
        ext: Blob::from_slice(alloc, recipe.ext.as_slice())?,
        body,
    })
}

/// The capsule of a recipe, whose inputs are loaded; of a name that is not, no bytes are taken. It
/// fits. It is TooLarge exactly where its
/// encoding would have more than 67,108,864 bytes, which is told before any input is copied.
pub fn build(alloc: Global, recipe: &Recipe, loaded: &Loaded) -> Result<Capsule, BuildFault>
    ensures value { IfOk result (λ capsule. capsule
        ≡ capsule_of (contents_of loaded.now.items) recipe.now) }
    ensures rule { IfOk result (λ capsule. IsTrue (fits capsule)) }
    ensures bound { OnOk result (is_sized (capsule_of (contents_of loaded.now.items) recipe.now)
        ≡ true) }
    ensures refused { IsErrOf result BuildFault.TooLarge →
        is_sized (capsule_of (contents_of loaded.now.items) recipe.now) ≡ false }
{
    let index = index_of(alloc, loaded)?;
    check_size(&index, recipe)?;
    Ok(make(alloc, &index, recipe)?)
}
