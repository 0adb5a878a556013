//! Which capsules have a spelling that is read again.

ghost use Rattle.std.specs.Prelude.{◌≡◌, ◌+◌, ◌-◌, min};
ghost use Rattle.std.specs.List.{list_all};
ghost use Rattle.capsule_grammar.specs.Fits.{fits, fmp_fits, image_fits, is_nonempty};

use crate::header::is_fmp_guid;
use crate::{Body, Capsule, FmpBody, Image};
use cu_base::Blob;

/// Whether the capsule can be written and read again: the body is that of an FMP capsule exactly
/// where the GUID is, at most 65,535 drivers and as many images are there, every driver that is not
/// the last of all items has a byte, and each image header tells the sizes of its blobs and keeps
/// the rules of its version.
pub fn fits(capsule: &Capsule) -> bool
    ensures { result ≡ fits capsule.now }
{
    match &capsule.body {
        Body::Other(_) => !is_fmp_guid(&capsule.guid),
        Body::Fmp(body) => is_fmp_guid(&capsule.guid) && fmp_fits(body),
    }
}

fn fmp_fits(body: &FmpBody) -> bool
    ensures { result ≡ fmp_fits body.now }
{
    let drivers = body.drivers.as_slice();
    let images = body.images.as_slice();
    let few = drivers.len() < 65536 && images.len() < 65536;
    let apart = are_nonempty(&drivers[..before_last(drivers.len(), images.len())]);
    let each = images_fit(images);
    few && apart && each
}

/// How many drivers are not the last of all items.
fn before_last(drivers: usize, images: usize) -> usize
    ensures { result ≡ min (drivers + images - 1) drivers }
{
    if images == 0 {
        drivers.saturating_sub(1)
    } else {
        drivers
    }
}

fn are_nonempty(drivers: &[Blob]) -> bool
    ensures { result ≡ list_all is_nonempty drivers.now }
{
    for driver in drivers {
        if driver.len() == 0 {
            return false;
        }
    }
    true
}

fn images_fit(images: &[Image]) -> bool
    ensures { result ≡ list_all image_fits images.now }
{
    for image in images {
        if !image_fits(image) {
            return false;
        }
    }
    true
}

fn image_fits(image: &Image) -> bool
    ensures { result ≡ image_fits image.now }
{
    image.header.image_size as usize == image.image.len()
        && image.header.vendor_size as usize == image.vendor.len()
        && image.header.keeps_version_rules()
}
