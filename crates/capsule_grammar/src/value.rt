use cu_base::{Blob, Blobs, Guid, Items};
use fmp_headers::ImageHeader;
use std::marker::Model;

/// A capsule (UEFI 2.10, 8.5.3). `ext` is what stands between the fields of the capsule header and
/// the body, which HeaderSize counts.
#[derive(Drop)]
pub struct Capsule {
    pub guid: Guid,
    pub flags: u32,
    pub ext: Blob,
    pub body: Body,
}

/// What stands behind the header of a capsule: that of an FMP capsule is known, any other is bytes.
#[derive(Drop)]
pub enum Body {
    Other(Blob),
    Fmp(FmpBody),
}

/// The body of an FMP capsule (UEFI 2.10, 23.3.2). `lead` is what stands between the offset list
/// and the first item. The items are the drivers and then the images.
#[derive(Drop)]
pub struct FmpBody {
    pub lead: Blob,
    pub drivers: Blobs,
    pub images: Images,
}

impl Model for FmpBody {
    ghost use Rattle.capsule_grammar.specs.Values.{FmpValue};

    ghost Value = { FmpValue };

    ghost view = { λ b. record {
      lead = b.lead;
      drivers = b.drivers.items;
      images = b.images.items;
    } };
}

/// An image item: its header, the update image, the vendor code, and `pad`, which stands behind
/// them up to the next item or the end of the capsule.
#[derive(Drop)]
pub struct Image {
    pub header: ImageHeader,
    pub image: Blob,
    pub vendor: Blob,
    pub pad: Blob,
}

/// An image item as slices of its bytes: its header, the update image, the vendor code and the pad.
#[derive(Clone, Copy, Debug, PartialEq, Eq)]
pub struct ImageView<'a> {
    pub header: ImageHeader,
    pub image: &'a [u8],
    pub vendor: &'a [u8],
    pub pad: &'a [u8],
}

/// A list of images.
pub type Images = Items<Image>;

/// A list of capsules.
pub type Capsules = Items<Capsule>;
