//! Capsules made of recipes, in pieces: heads, and slices of the inputs, which are not copied.

ghost use Rattle.std.specs.Prelude.{◌≡◌, ◌≤◌, ◌+◌, ◌++◌, true, false, IfOk, OnOk, IsErrOf, length, map};
ghost use Rattle.std.specs.List.{concat};
ghost use Rattle.capsule_grammar.specs.Fits.{is_sized};
ghost use Rattle.capsule_grammar.specs.Pieces.{joined};
ghost use Rattle.capsule_grammar.specs.Spelling.{body_bytes, fmp_bytes, header_of, image_bytes};
ghost use Rattle.capsule_grammar.specs.Spelling.{spelling};
ghost use Rattle.recipe_files.specs.Builds.{body_of, capsule_of, contents_of, drivers_of, fmp_of};
ghost use Rattle.recipe_files.specs.Builds.{image_of};
ghost use Rattle.recipe_files.specs.RecipeTypes.{body_seen};
ghost use Rattle.recipe_files.specs.Room.{found};

use crate::heads::{put_fmp_head, put_image_head};
use crate::index::{find, index_of};
use crate::limits::{MAX_DRIVERS, MAX_ITEMS};
use crate::room::{check_size, driver};
use crate::{BuildFault, Recipe, RecipeBody, RecipeItem};
use capsule_grammar::Piece;
use cu_base::{Blob, Items, MAX_CAPSULE_BYTES, NoMemory, Text};
use cu_io::Loaded;
use fmp_headers::{CAPSULE_HEADER_BYTES, CapsuleHeader};
use std::alloc::Global;
use std::collections::HashMap;

/// The bytes of the capsule of [`build`](crate::build) in pieces that are written one after the
/// other. Each input is a slice of what was loaded. It is TooLarge exactly where they would be more
/// than 67,108,864, which is told before any byte is laid.
pub fn build_pieces<'a>(
    alloc: Global,
    recipe: &'a Recipe,
    loaded: &'a Loaded,
) -> Result<Items<Piece<'a>>, BuildFault>
    ensures value { IfOk result (λ pieces. joined pieces.items
        ≡ spelling (capsule_of (contents_of loaded.now.items) recipe.now)) }
    ensures bound { OnOk result (is_sized (capsule_of (contents_of loaded.now.items) recipe.now)
        ≡ true) }
    ensures refused { IsErrOf result BuildFault.TooLarge →
        is_sized (capsule_of (contents_of loaded.now.items) recipe.now) ≡ false }
{
    let index = index_of(alloc, loaded)?;
    let size = check_size(&index, recipe)?;
    let mut pieces = Items::new(alloc);
    put_capsule(alloc, &index, recipe, size, &mut pieces)?;
    Ok(pieces)
}

/// The CapsuleImageSize of the capsule of a recipe, whose inputs are loaded. It is TooLarge as
/// [`build`](crate::build) is.
pub fn capsule_size(alloc: Global, recipe: &Recipe, loaded: &Loaded) -> Result<u32, BuildFault>
    ensures value { IfOk result (λ size. size
        ≡ (header_of (capsule_of (contents_of loaded.now.items) recipe.now)).image_size) }
    ensures bound { OnOk result (is_sized (capsule_of (contents_of loaded.now.items) recipe.now)
        ≡ true) }
    ensures refused { IsErrOf result BuildFault.TooLarge →
        is_sized (capsule_of (contents_of loaded.now.items) recipe.now) ≡ false }
{
    let index = index_of(alloc, loaded)?;
    Ok(check_size(&index, recipe)?)
}

/// Appends the capsule of a recipe, which has `size` bytes.
fn put_capsule<'a>(
    alloc: Global,
    index: &HashMap<&'a str, &'a [u8]>,
    recipe: &'a Recipe,
    size: u32,
    pieces: &mut Items<Piece<'a>>,
) -> Result<(), NoMemory>
    requires sized { size ≡ (header_of (capsule_of (found index.now) recipe.now)).image_size }
    requires limit { size ≤ MAX_CAPSULE_BYTES }
    ensures { OnOk result (joined pieces.new.items ≡ joined pieces.old.items
        ++ spelling (capsule_of (found index.now) recipe.now)) }
{
    let mut heads = Blob::new(alloc);
    CapsuleHeader {
        guid: recipe.guid,
        header_size: CAPSULE_HEADER_BYTES + recipe.ext.len() as u32,
        flags: recipe.flags,
        image_size: size,
    }
    .write_into(&mut heads)?;
    heads.push_slice(recipe.ext.as_slice())?;
    put_body(alloc, index, recipe, heads, pieces)?;
    Ok(())
}

/// Appends the body of a capsule behind these heads.
fn put_body<'a>(
    alloc: Global,
    index: &HashMap<&'a str, &'a [u8]>,
    recipe: &'a Recipe,
    heads: Blob,
    pieces: &mut Items<Piece<'a>>,
) -> Result<(), NoMemory>
    requires { length (body_bytes (body_of (found index.now) recipe.now.body)) ≤ MAX_CAPSULE_BYTES }
    ensures { OnOk result (joined pieces.new.items ≡ joined pieces.old.items
        ++ (heads ++ body_bytes (body_of (found index.now) recipe.now.body))) }
{
    let _guid = &recipe.guid;
    match &recipe.body {
        RecipeBody::Other(name) => {
            pieces.push(Piece::Own(heads))?;
            pieces.push(Piece::Lent(find(index, name.as_str())))?;
            Ok(())
        }
        RecipeBody::Fmp { drivers, items } => {
            put_fmp(
                alloc,
                index,
                drivers.as_slice(),
                items.as_slice(),
                heads,
                pieces,
            )?;
            Ok(())
        }
    }
}

/// Appends the body of an FMP capsule behind these heads.
fn put_fmp<'a>(
    alloc: Global,
    index: &HashMap<&'a str, &'a [u8]>,
    drivers: &[Text],
    items: &'a [RecipeItem],
    heads: Blob,
    pieces: &mut Items<Piece<'a>>,
) -> Result<(), NoMemory>
    requires drivers { length drivers.now ≤ MAX_DRIVERS }
    requires items { length items.now ≤ MAX_ITEMS }
    requires sized { length (fmp_bytes (fmp_of (found index.now) drivers.now items.now))
        ≤ MAX_CAPSULE_BYTES }
    ensures { OnOk result (joined pieces.new.items ≡ joined pieces.old.items
        ++ (heads ++ fmp_bytes (fmp_of (found index.now) drivers.now items.now))) }
{
    let mut heads = heads;
    put_fmp_head(&mut heads, index, drivers, items)?;
    pieces.push(Piece::Own(heads))?;
    put_drivers(index, drivers, items.len(), pieces)?;
    put_images(alloc, index, items, pieces)?;
    Ok(())
}

/// Appends the drivers, which stand before so many payload items.
fn put_drivers<'a>(
    index: &HashMap<&'a str, &'a [u8]>,
    drivers: &[Text],
    later: usize,
    pieces: &mut Items<Piece<'a>>,
) -> Result<(), NoMemory>
    requires { later ≤ MAX_ITEMS }
    ensures { OnOk result (joined pieces.new.items ≡ joined pieces.old.items
        ++ concat (drivers_of later (map (found index.now) drivers.now))) }
{
    pieces.reserve(drivers.len())?;
    let mut behind = drivers.len() + later;
    for name in drivers {
        behind -= 1;
        pieces.push(Piece::Lent(driver(index, name.as_str(), 0 < behind)))?;
    }
    Ok(())
}

/// Appends the image items of these items.
fn put_images<'a>(
    alloc: Global,
    index: &HashMap<&'a str, &'a [u8]>,
    items: &'a [RecipeItem],
    pieces: &mut Items<Piece<'a>>,
) -> Result<(), NoMemory>
    requires { length (concat (map image_bytes (map (image_of (found index.now)) items.now)))
        ≤ MAX_CAPSULE_BYTES }
    ensures { OnOk result (joined pieces.new.items ≡ joined pieces.old.items
        ++ concat (map image_bytes (map (image_of (found index.now)) items.now))) }
{
    for item in items {
        put_image(alloc, index, item, pieces)?;
    }
    Ok(())
}

/// Appends the image item of an item: its heads, its payload, and its vendor code.
fn put_image<'a>(
    alloc: Global,
    index: &HashMap<&'a str, &'a [u8]>,
    item: &'a RecipeItem,
    pieces: &mut Items<Piece<'a>>,
) -> Result<(), NoMemory>
    requires { length (image_bytes (image_of (found index.now) item.now)) ≤ MAX_CAPSULE_BYTES }
    ensures { OnOk result (joined pieces.new.items ≡ joined pieces.old.items
        ++ image_bytes (image_of (found index.now) item.now)) }
{
    let mut heads = Blob::new(alloc);
    put_image_head(&mut heads, index, item)?;
    pieces.push(Piece::Own(heads))?;
    pieces.push(Piece::Lent(find(index, item.payload.as_str())))?;
    pieces.push(Piece::Lent(item.vendor.as_slice()))?;
    Ok(())
}
