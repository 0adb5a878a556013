//! How many bytes the parts of a capsule have that is known to be short enough.

ghost use Rattle.std.specs.Prelude.{◌≡◌, ◌≤◌, ◌+◌, length};
ghost use Rattle.capsule_grammar.specs.Spelling.{image_bytes};
ghost use Rattle.image_parts.specs.Parts.{auth_bytes, dep_bytes};
ghost use Rattle.recipe_files.specs.Builds.{auth_of, image_of, update_image};
ghost use Rattle.recipe_files.specs.Room.{found};

use crate::RecipeItem;
use crate::index::find;
use crate::room::{AUTHENTICATION_BYTES, HEAD_BYTES};
use cu_base::{Blob, MAX_CAPSULE_BYTES};
use fmp_headers::image_header_size;
use std::collections::HashMap;

/// The bytes of the authentication data of an item, if it has any.
fn auth_size(item: &RecipeItem) -> u32
    requires { length (auth_bytes (auth_of item.now)) ≤ MAX_CAPSULE_BYTES }
    ensures { result ≡ length (auth_bytes (auth_of item.now)) }
{
    let _type: &[u8] = &item.cert_type.bytes;
    if !item.auth {
        return 0;
    }
    AUTHENTICATION_BYTES as u32 + item.cert.len() as u32
}

/// The bytes of a section, if there is one.
fn section_size(dep: &Option<Blob>) -> u32
    requires { length (dep_bytes dep.now) ≤ MAX_CAPSULE_BYTES }
    ensures { result ≡ length (dep_bytes dep.now) }
{
    match dep {
        Some(bytes) => bytes.len() as u32,
        None => 0,
    }
}

/// The bytes of the update image of an item.
#[tactic(auto, using(crate::proofs::BuildLemmas::update_image_size))]
pub(crate) fn update_size<'a>(index: &HashMap<&'a str, &'a [u8]>, item: &RecipeItem) -> u32
    requires { length (update_image (found index.now) item.now) ≤ MAX_CAPSULE_BYTES }
    ensures { result ≡ length (update_image (found index.now) item.now) }
{
    let payload = find(index, item.payload.as_str());
    auth_size(item) + section_size(&item.dep) + HEAD_BYTES + payload.len() as u32
}

/// The bytes of the image item of an item.
#[tactic(auto, using(crate::proofs::BuildLemmas::image_size, crate::proofs::BuildLemmas::update_image_size))]
pub(crate) fn item_size<'a>(index: &HashMap<&'a str, &'a [u8]>, item: &RecipeItem) -> u32
    requires { length (image_bytes (image_of (found index.now) item.now)) ≤ MAX_CAPSULE_BYTES }
    ensures { result ≡ length (image_bytes (image_of (found index.now) item.now)) }
{
    let _type: &[u8] = &item.type_id.bytes;
    image_header_size(item.header) + update_size(index, item) + item.vendor.len() as u32
}
