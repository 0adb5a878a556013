//! What stands in a capsule before the bytes of its inputs: headers, offsets, authentication data,
//! sections and payload headers.

ghost use Rattle.std.specs.Prelude.{◌≡◌, ◌≤◌, ◌+◌, ◌++◌, ◌^◌, [], IfOk, OnOk, length, map};
ghost use Rattle.std.specs.List.{concat, flat_map};
ghost use Rattle.cu_base.specs.Fields.{bytes_of};
ghost use Rattle.capsule_grammar.specs.Spelling.{fmp_bytes, image_bytes, item_bytes, offsets};
ghost use Rattle.recipe_files.specs.Builds.{drivers_of, fmp_of, header_of, image_of};
ghost use Rattle.recipe_files.specs.Room.{found};

use crate::RecipeItem;
use crate::image::{head_of, put_auth, put_head, put_section, support_of};
use crate::limits::{MAX_DRIVERS, MAX_ITEMS};
use crate::room::{OFFSET_BYTES, driver};
use crate::sizes::{item_size, update_size};
use cu_base::{Blob, MAX_CAPSULE_BYTES, NoMemory, Text, put_u64};
use fmp_headers::{FMP_HEADER_BYTES, FmpHeader, ImageHeader};
use std::collections::HashMap;

/// Appends FMP header and offset list.
pub(crate) fn put_fmp_head<'a>(
    out: &mut Blob,
    index: &HashMap<&'a str, &'a [u8]>,
    drivers: &[Text],
    items: &[RecipeItem],
) -> Result<(), NoMemory>
    requires drivers { length drivers.now ≤ MAX_DRIVERS }
    requires items { length items.now ≤ MAX_ITEMS }
    requires sized { length (fmp_bytes (fmp_of (found index.now) drivers.now items.now))
        ≤ MAX_CAPSULE_BYTES }
    ensures { OnOk result (out.new
        ++ concat (item_bytes (fmp_of (found index.now) drivers.now items.now))
        ≡ out.old ++ fmp_bytes (fmp_of (found index.now) drivers.now items.now)) }
{
    let count = drivers.len() + items.len();
    let first = FMP_HEADER_BYTES + (OFFSET_BYTES * count) as u32;
    out.reserve(first as usize)?;
    FmpHeader {
        drivers: drivers.len() as u16,
        items: items.len() as u16,
    }
    .write_into(out)?;
    let here = put_driver_offsets(out, index, drivers, items.len(), first)?;
    put_item_offsets(out, index, items, here)?;
    Ok(())
}

/// Appends the offset of each driver, the first of which begins at `first`, and gives where they end.
fn put_driver_offsets<'a>(
    out: &mut Blob,
    index: &HashMap<&'a str, &'a [u8]>,
    drivers: &[Text],
    later: usize,
    first: u32,
) -> Result<u32, NoMemory>
    requires later { later ≤ MAX_ITEMS }
    requires within { first + length (concat (drivers_of later (map (found index.now) drivers.now)))
        ≤ MAX_CAPSULE_BYTES }
    ensures offsets { OnOk result (out.new ≡ out.old ++ flat_map (bytes_of 8)
        (offsets first (drivers_of later (map (found index.now) drivers.now)))) }
    ensures end { IfOk result (λ here. here
        ≡ first + length (concat (drivers_of later (map (found index.now) drivers.now)))) }
{
    let mut here = first;
    let mut behind = drivers.len() + later;
    for name in drivers {
        behind -= 1;
        put_u64(out, here as u64)?;
        here += driver(index, name.as_str(), 0 < behind).len() as u32;
    }
    Ok(here)
}

/// Appends the offset of each image item, the first of which begins at `first`.
fn put_item_offsets<'a>(
    out: &mut Blob,
    index: &HashMap<&'a str, &'a [u8]>,
    items: &[RecipeItem],
    first: u32,
) -> Result<(), NoMemory>
    requires { first + length (concat (map image_bytes (map (image_of (found index.now)) items.now)))
        ≤ MAX_CAPSULE_BYTES }
    ensures { OnOk result (out.new ≡ out.old ++ flat_map (bytes_of 8)
        (offsets first (map image_bytes (map (image_of (found index.now)) items.now)))) }
{
    let mut here = first;
    for item in items {
        put_u64(out, here as u64)?;
        here += item_size(index, item);
    }
    Ok(())
}

/// The image header of an item (UEFI 2.10, 23.3.2).
#[tactic(auto, using(crate::proofs::BuildLemmas::image_is_within, crate::proofs::BuildLemmas::vendor_is_within))]
fn image_header<'a>(index: &HashMap<&'a str, &'a [u8]>, item: &RecipeItem) -> ImageHeader
    requires { length (image_bytes (image_of (found index.now) item.now)) ≤ MAX_CAPSULE_BYTES }
    ensures { result ≡ header_of (found index.now) item.now }
{
    ImageHeader {
        version: item.header,
        type_id: item.type_id,
        index: item.index,
        reserved: [0; 3],
        image_size: update_size(index, item),
        vendor_size: item.vendor.len() as u32,
        instance: item.instance,
        support: support_of(item),
    }
}

/// Appends what stands before the payload of an item: its image header, authentication data, section
/// and payload header.
#[tactic(auto, using(crate::proofs::LayLemmas::auth_is_inside, crate::proofs::BuildLemmas::version_rules))]
pub(crate) fn put_image_head<'a>(
    out: &mut Blob,
    index: &HashMap<&'a str, &'a [u8]>,
    item: &RecipeItem,
) -> Result<(), NoMemory>
    requires { length (image_bytes (image_of (found index.now) item.now)) ≤ MAX_CAPSULE_BYTES }
    ensures { OnOk result (out.new ++ (found index.now item.now.payload ++ item.now.vendor)
        ≡ out.old ++ image_bytes (image_of (found index.now) item.now)) }
{
    let dep = &item.dep;
    image_header(index, item).write_into(out)?;
    put_auth(out, item)?;
    put_section(out, dep)?;
    put_head(out, &head_of(item))?;
    Ok(())
}
