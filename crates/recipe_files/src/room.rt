//! How many bytes a capsule takes, before any is written.

ghost use Rattle.std.specs.Prelude.{◌≡◌, ◌+◌, ◌*◌, ◌≤◌, ◌<◌, true, false, if◌then◌else◌, IsTrue};
ghost use Rattle.std.specs.Prelude.{IfOk, MatchResult, length, map};
ghost use Rattle.std.specs.List.{concat};
ghost use Rattle.capsule_grammar.specs.Fits.{is_sized};
ghost use Rattle.capsule_grammar.specs.Spelling.{body_bytes, fmp_bytes, header_of, image_bytes};
ghost use Rattle.image_parts.specs.Parts.{auth_bytes, dep_bytes};
ghost use Rattle.recipe_files.specs.Builds.{auth_of, body_of, capsule_of, drivers_of, filled};
ghost use Rattle.recipe_files.specs.Builds.{fmp_of, image_of, update_image};
ghost use Rattle.recipe_files.specs.RecipeTypes.{body_seen};
ghost use Rattle.recipe_files.specs.Room.{FitsIn, found};

use crate::index::find;
use crate::limits::{MAX_DRIVERS, MAX_ITEMS};
use crate::{BuildFault, Recipe, RecipeBody, RecipeItem};
use cu_base::{Blob, MAX_CAPSULE_BYTES, Text};
use fmp_headers::{CAPSULE_HEADER_BYTES, FMP_HEADER_BYTES, image_header_size};
use std::collections::HashMap;

/// The bytes of an offset.
pub(crate) const OFFSET_BYTES: usize = 8;

/// The bytes of authentication data up to CertData (UEFI 2.10, 23.1).
pub(crate) const AUTHENTICATION_BYTES: usize = 32;

/// The bytes of a payload header (EDK II, FmpPayloadHeaderLibV1).
pub(crate) const HEAD_BYTES: u32 = 16;

/// An empty driver that stands before another item.
const FILLED_DRIVER: &[u8] = &[0];

/// What is left of the room behind so many bytes.
fn take(room: u64, size: usize) -> Result<u64, BuildFault>
    ensures { FitsIn room size result }
{
    let size = size as u64;
    if room < size {
        return Err(BuildFault::TooLarge);
    }
    Ok(room - size)
}

/// The bytes of a driver, which stands before another item or is the last.
pub(crate) fn driver<'a>(
    index: &HashMap<&'a str, &'a [u8]>,
    name: &str,
    is_before: bool,
) -> &'a [u8]
    ensures { result.now
        ≡ (if is_before then filled (found index.now name.now) else found index.now name.now) }
{
    let bytes = find(index, name);
    if is_before && bytes.is_empty() {
        return FILLED_DRIVER;
    }
    bytes
}

/// What is left of the room behind the drivers, which stand before so many payload items.
fn behind_drivers<'a>(
    index: &HashMap<&'a str, &'a [u8]>,
    drivers: &[Text],
    later: usize,
    room: u64,
) -> Result<u64, BuildFault>
    requires { later ≤ MAX_ITEMS }
    ensures { FitsIn room
        (length (concat (drivers_of later (map (found index.now) drivers.now)))) result }
{
    let mut left = room;
    let mut behind = drivers.len() + later;
    for name in drivers {
        behind -= 1;
        left = take(left, driver(index, name.as_str(), 0 < behind).len())?;
    }
    Ok(left)
}

/// What is left of the room behind the authentication data of an item.
fn behind_auth(item: &RecipeItem, room: u64) -> Result<u64, BuildFault>
    ensures { FitsIn room (length (auth_bytes (auth_of item.now))) result }
{
    let _type: &[u8] = &item.cert_type.bytes;
    if !item.auth {
        return Ok(room);
    }
    take(take(room, AUTHENTICATION_BYTES)?, item.cert.len())
}

/// What is left of the room behind a section, where there is one.
fn behind_section(dep: &Option<Blob>, room: u64) -> Result<u64, BuildFault>
    ensures { FitsIn room (length (dep_bytes dep.now)) result }
{
    match dep {
        Some(bytes) => take(room, bytes.len()),
        None => Ok(room),
    }
}

/// What is left of the room behind the image item of an item.
#[tactic(auto, using(crate::proofs::BuildLemmas::image_size))]
fn behind_item<'a>(
    index: &HashMap<&'a str, &'a [u8]>,
    item: &RecipeItem,
    room: u64,
) -> Result<u64, BuildFault>
    ensures { FitsIn room (length (image_bytes (image_of (found index.now) item.now))) result }
{
    let _type: &[u8] = &item.type_id.bytes;
    let left = take(room, (image_header_size(item.header) + HEAD_BYTES) as usize)?;
    let left = behind_auth(item, left)?;
    let left = behind_section(&item.dep, left)?;
    let left = take(left, find(index, item.payload.as_str()).len())?;
    take(left, item.vendor.len())
}

/// What is left of the room behind the image items of these items.
fn behind_items<'a>(
    index: &HashMap<&'a str, &'a [u8]>,
    items: &[RecipeItem],
    room: u64,
) -> Result<u64, BuildFault>
    ensures { FitsIn room
        (length (concat (map image_bytes (map (image_of (found index.now)) items.now)))) result }
{
    let mut left = room;
    for item in items {
        left = behind_item(index, item, left)?;
    }
    Ok(left)
}

/// What is left of the room behind the body of an FMP capsule.
#[tactic(auto, using(crate::proofs::BuildLemmas::fmp_size))]
fn behind_fmp<'a>(
    index: &HashMap<&'a str, &'a [u8]>,
    drivers: &[Text],
    items: &[RecipeItem],
    room: u64,
) -> Result<u64, BuildFault>
    requires drivers { length drivers.now ≤ MAX_DRIVERS }
    requires items { length items.now ≤ MAX_ITEMS }
    ensures { FitsIn room (length (fmp_bytes (fmp_of (found index.now) drivers.now items.now)))
        result }
{
    let count = drivers.len() + items.len();
    let left = take(room, FMP_HEADER_BYTES as usize + OFFSET_BYTES * count)?;
    let left = behind_drivers(index, drivers, items.len(), left)?;
    behind_items(index, items, left)
}

/// What is left of the room behind the body of the capsule.
fn behind_body<'a>(
    index: &HashMap<&'a str, &'a [u8]>,
    recipe: &Recipe,
    room: u64,
) -> Result<u64, BuildFault>
    ensures { FitsIn room (length (body_bytes (body_of (found index.now) recipe.now.body))) result }
{
    let _guid = &recipe.guid;
    match &recipe.body {
        RecipeBody::Other(name) => take(room, find(index, name.as_str()).len()),
        RecipeBody::Fmp { drivers, items } => {
            behind_fmp(index, drivers.as_slice(), items.as_slice(), room)
        }
    }
}

/// The bytes of the encoding of the capsule, if they are at most 67,108,864.
pub(crate) fn check_size<'a>(
    index: &HashMap<&'a str, &'a [u8]>,
    recipe: &Recipe,
) -> Result<u32, BuildFault>
    ensures size { IfOk result
        (λ size. size ≡ (header_of (capsule_of (found index.now) recipe.now)).image_size) }
    ensures fits { MatchResult result
        (λ _. is_sized (capsule_of (found index.now) recipe.now) ≡ true)
        (λ fault. is_sized (capsule_of (found index.now) recipe.now) ≡ false) }
    ensures bound { IfOk result (λ size. size ≤ MAX_CAPSULE_BYTES) }
{
    let room = (MAX_CAPSULE_BYTES - CAPSULE_HEADER_BYTES) as u64;
    let left = take(room, recipe.ext.len())?;
    let left = behind_body(index, recipe, left)?;
    Ok(MAX_CAPSULE_BYTES - left as u32)
}
