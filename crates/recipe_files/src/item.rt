use cu_base::{Blob, Guid, Items, Text};
use std::marker::Model;

/// An image item of a recipe. Contracts see the record of its fields, which keep the rules of their
/// keys.
#[derive(Drop)]
pub struct RecipeItem {
    /// Version of the image header, 1 to 3 (UEFI 2.10, 23.3.2). 1 or 2 needs `auth` and no `dep`.
    pub header: u32,
    /// UpdateImageTypeId.
    pub type_id: Guid,
    /// UpdateImageIndex.
    pub index: u8,
    /// UpdateHardwareInstance, below 2^63; 0 in a header of version 1.
    pub instance: u64,
    /// Whether the update image begins with authentication data.
    pub auth: bool,
    /// FwVersion of the payload header.
    pub fw_version: u32,
    /// LowestSupportedVersion of the payload header.
    pub lowest: u32,
    /// The input that is the payload: 1 to 64 bytes of 0x21 to 0x7E.
    pub payload: Text,
    /// The vendor code.
    pub vendor: Blob,
    /// MonotonicCount of the authentication data, below 2^63.
    pub monotonic: u64,
    /// CertType of the authentication data.
    pub cert_type: Guid,
    /// CertData of the authentication data.
    pub cert: Blob,
    /// The dependency section, if there is one.
    pub dep: Option<Blob>,
}

impl Model for RecipeItem {
    ghost use Rattle.recipe_files.specs.Recipes.{ItemValue, IsItem, item};

    ghost Value = { ItemValue };

    ghost view = { λ i. item i.header i.type_id i.index i.instance i.auth i.fw_version i.lowest
        i.payload i.vendor i.monotonic i.cert_type i.cert i.dep };

    ghost invariant = { λ i. IsItem (item i.header i.type_id i.index i.instance i.auth i.fw_version
        i.lowest i.payload i.vendor i.monotonic i.cert_type i.cert i.dep) };
}

/// A list of items.
pub type RecipeItems = Items<RecipeItem>;
