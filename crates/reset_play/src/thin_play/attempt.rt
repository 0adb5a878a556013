//! The attempt of a thin file.

ghost use Rattle.std.specs.Prelude.{◌≡◌, ◌<◌, ◌^◌, [], IfOk, IsTrue, length, option_map, unwrap_or};
ghost use Rattle.reference_machine.specs.Boots.{element_of};
ghost use Rattle.reference_machine.specs.Spent.Standing.{Open};
ghost use Rattle.delivery_formats.specs.TrueFormats.{true_formats};
ghost use Rattle.reset_play.specs.Thin.{is_thin, thin_item};
ghost use Rattle.reset_play.specs.ThinValues.{item_of, parts_of};
ghost use Rattle.reset_play.specs.Whole.{file_key, file_unit};

use super::delivery::{ThinItem, read_thin};
use super::folder::StoredFile;
use super::spent::{SpentTry, Standing};
use crate::UnitKey;
use cu_base::{NoMemory, Text, Ticket};
use image_parts::Parts;
use std::alloc::Global;

// The key of the file's one unit.
fn key_of(alloc: Global, file: &StoredFile<'_>) -> Result<UnitKey, NoMemory>
    ensures { IfOk result (λ key. key ≡ file_key file.now) }
{
    let name = Text::from_str(alloc, file.name.as_str())?;
    let ticket = Ticket {
        route: 1,
        capsule: 0,
        item: 0,
        serial: file.serial,
    };
    Ok(UnitKey {
        ticket,
        unit: 0,
        device: 0,
        name,
    })
}

// Version, lowest supported version and payload of an image: 0, 0 and nothing where it has no
// parts.
fn told_by<'a>(parts: &Option<Parts<'a>>) -> (u32, u32, &'a [u8])
    ensures version { result.0
        ≡ unwrap_or (option_map (λ p. p.version) (option_map parts_of parts.now)) 0 }
    ensures lowest { result.1
        ≡ unwrap_or (option_map (λ p. p.lowest) (option_map parts_of parts.now)) 0 }
    ensures payload { (result.2).now
        ≡ unwrap_or (option_map (λ p. p.payload) (option_map parts_of parts.now)) [] }
{
    match parts {
        Some(parts) => (parts.head.version, parts.head.lowest, parts.payload),
        None => (0, 0, &[]),
    }
}

/// The item of a thin file.
pub fn item_in(bytes: &[u8]) -> ThinItem<'_>
    requires { IsTrue (is_thin bytes.now) }
    ensures value { item_of result ≡ thin_item bytes.now }
    ensures bound { length result.image.now < 2 ^ 32 }
{
    match read_thin(bytes) {
        Some(item) => item,
        None => unreachable!(),
    }
}

/// The attempt of the one unit of a thin file, still open, by the parts of its image.
pub fn attempt_of<'a>(
    alloc: Global,
    file: &StoredFile<'a>,
    item: &ThinItem<'a>,
    parts: &Option<Parts<'a>>,
) -> Result<SpentTry<'a>, NoMemory>
    requires item { item_of item.now ≡ thin_item (file.now).bytes }
    requires parts { option_map parts_of parts.now ≡ true_formats.parts (item_of item.now).image 0 }
    ensures { IfOk result (λ attempt. attempt ≡ element_of true_formats (file_unit file.now) Open) }
{
    let key = key_of(alloc, file)?;
    let (version, floor, payload) = told_by(parts);
    Ok(SpentTry {
        key,
        type_id: item.type_id,
        index: item.index,
        instance: item.instance,
        version,
        floor,
        payload,
        standing: Standing::Open,
    })
}
