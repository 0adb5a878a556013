//! How much room a text takes at most, so that it is made at once.

ghost use Rattle.std.specs.Prelude.{◌≡◌, ◌≤◌, None};
ghost use Rattle.capsule_grammar.specs.Accepted.{IsFmpBody, IsImageItem};
ghost use Rattle.capsule_grammar.specs.Refusals.{refusal};

use crate::front::is_fmp;
use capsule_grammar::accepted::{body, image_header};
use capsule_grammar::{driver_count, image_count, item};
use dep_code::MAX_SECTION_BYTES;

/// The most bytes of the lines of the header and of the counts.
const HEADER_ROOM: usize = 160;

/// The most bytes of the line of a driver.
const DRIVER_ROOM: usize = 32;

/// The most bytes of the lines of an image, but for the digits of its section.
const IMAGE_ROOM: usize = 400;

/// The most bytes of the text of the capsule at the front.
#[tactic(auto, using(crate::proofs::Fronts::is_body))]
pub fn text_room(bytes: &[u8]) -> usize
    requires { refusal bytes.now ≡ None }
{
    if is_fmp(bytes) {
        HEADER_ROOM + items_room(body(bytes))
    } else {
        HEADER_ROOM
    }
}

/// The most bytes of the lines of the items.
fn items_room(body: &[u8]) -> usize
    requires { IsFmpBody body.now }
    ensures { result ≤ 1000000000 }
{
    let drivers = driver_count(body) as u32;
    let mut room = DRIVER_ROOM * drivers as usize;
    for k in 0..image_count(body) as u32 {
        room += image_room(item(body, drivers + k));
    }
    room
}

/// The most bytes of the lines of an image, whose section has two digits a byte.
fn image_room(item: &[u8]) -> usize
    requires { IsImageItem item.now }
    ensures { result ≤ 9000 }
{
    let header = image_header(item);
    if header.support / 2 % 2 == 0 {
        return IMAGE_ROOM;
    }
    IMAGE_ROOM + 2 * (header.image_size as usize).min(MAX_SECTION_BYTES as usize)
}
