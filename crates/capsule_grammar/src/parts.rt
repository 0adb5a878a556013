//! The checks of the parts of a capsule, by their first bytes and their length. They speak of all
//! bytes that have this front and this length, so who calls them need not have the rest.

ghost use Rattle.std.specs.Prelude.{◌≡◌, ℕ, List, ◌+◌, ◌-◌, ◌*◌, ◌≤◌, ◌<◌, ◌^◌, OnOk, length, min};
ghost use Rattle.cu_base.specs.Refusals.{first_refusal};
ghost use Rattle.capsule_grammar.specs.Accepted.{AreBounds};
ghost use Rattle.capsule_grammar.specs.Fronts.{Begins};
ghost use Rattle.capsule_grammar.specs.Refusals.{Answers, all_offset_rows, driver_count};
ghost use Rattle.capsule_grammar.specs.Refusals.{fmp_front_rows, image_count, image_rows};
ghost use Rattle.capsule_grammar.specs.Refusals.{item_count, list_end, offset, offset_rows};
ghost use Rattle.capsule_grammar.specs.Refusals.{start_of};

use crate::{Refusal, Why};
use cu_base::{u16_at, u32_at, u64_at};
use fmp_headers::{
    DRIVER_COUNT_AT, FMP_HEADER_BYTES, FmpHeader, HeaderFault, IMAGE_HEADER_BYTES, IMAGE_SIZE_AT,
    ITEM_COUNT_AT, image_header_size, is_image_version,
};

/// The bytes of an offset in the offset list.
pub const OFFSET_BYTES: u32 = 8;

/// The place of Version in an image header.
const VERSION_AT: usize = 0;

/// The place of UpdateVendorCodeSize in an image header.
const VENDOR_SIZE_AT: usize = 28;

/// How many drivers the body has of which this is the front.
pub fn driver_count(front: &[u8]) -> u16
    requires { 8 ≤ length front.now }
    ensures { result ≡ driver_count front.now }
{
    u16_at(front, DRIVER_COUNT_AT)
}

/// How many images the body has of which this is the front.
pub fn image_count(front: &[u8]) -> u16
    requires { 8 ≤ length front.now }
    ensures { result ≡ image_count front.now }
{
    u16_at(front, ITEM_COUNT_AT)
}

/// How many items the body has of which this is the front.
pub fn item_count(front: &[u8]) -> u32
    requires { 8 ≤ length front.now }
    ensures value { result ≡ item_count front.now }
    ensures bound { result < 2 ^ 17 }
{
    driver_count(front) as u32 + image_count(front) as u32
}

/// Where the offset list ends in the body of which this is the front.
pub fn list_end(front: &[u8]) -> u32
    requires { 8 ≤ length front.now }
    ensures value { result ≡ list_end front.now }
    ensures bound { result < 2 ^ 21 }
{
    FMP_HEADER_BYTES + OFFSET_BYTES * item_count(front)
}

/// Whether FMP header or offset list of a body is refused. `front` is the first bytes of the body,
/// at least 8 of them or all, and `size` is the length of the body. Places count from `at`.
pub fn check_fmp_header(front: &[u8], size: u32, at: u32) -> Result<(), Refusal>
    requires there { min 8 size ≤ length front.now }
    requires within { length front.now ≤ size }
    requires small { at + size < 2 ^ 31 }
    ensures ok { OnOk result ((list_end front.now ≤ size) × (8 ≤ length front.now)) }
    ensures refused { (body : List ℕ) → Begins front.now size body →
        Answers result (first_refusal (fmp_front_rows body at)) }
{
    match FmpHeader::read(front) {
        Ok(_) => {
            if size < list_end(front) {
                return Err(Refusal {
                    at: at + FMP_HEADER_BYTES,
                    why: Why::Short,
                });
            }
            Ok(())
        }
        Err(HeaderFault::BadFmpVersion) => Err(Refusal {
            at,
            why: Why::BadFmpVersion,
        }),
        Err(_) => Err(Refusal {
            at,
            why: Why::Short,
        }),
    }
}

/// Offset `k` of the list.
fn offset(front: &[u8], k: u32) -> u64
    requires list { list_end front.now ≤ length front.now }
    requires there { k < item_count front.now }
    ensures { result ≡ offset front.now k }
{
    u64_at(
        front,
        FMP_HEADER_BYTES as usize + OFFSET_BYTES as usize * k as usize,
    )
}

/// Whether one offset of a list is refused, by its number. It is offset `k` and `here` is its
/// number, `before` is that of the offset before it, the list ends at `list` and the body has `size`
/// bytes. Places count from `at`.
pub fn check_one_offset(
    k: u32,
    here: u64,
    before: u64,
    list: u32,
    size: u32,
    at: u32,
) -> Result<(), Refusal>
    requires small { at + list < 2 ^ 31 }
    requires there { 16 + 8 * k ≤ list }
    ensures ok { OnOk result (here ≤ size) }
    ensures refused { (body : List ℕ) → offset body k ≡ here → (0 < k → offset body (k - 1) ≡ before)
        → list_end body ≡ list → length body ≡ size
        → Answers result (first_refusal (offset_rows body at k)) }
{
    let why = if here < list as u64 || (size as u64) < here {
        Why::OffsetsOutside
    } else if k > 0 && here <= before {
        Why::OffsetsNotRising
    } else {
        return Ok(());
    };
    Err(Refusal {
        at: at + FMP_HEADER_BYTES + OFFSET_BYTES * k,
        why,
    })
}

/// The refusal of one offset, if it is refused.
fn check_offset(front: &[u8], size: u32, at: u32, k: u32) -> Result<(), Refusal>
    requires small { at + size < 2 ^ 31 }
    requires list { list_end front.now ≤ length front.now }
    requires within { length front.now ≤ size }
    requires there { k < item_count front.now }
    ensures { (body : List ℕ) → Begins front.now size body →
        Answers result (first_refusal (offset_rows body at k)) }
{
    let here = offset(front, k);
    check_one_offset(k, here, offset_before(front, k), list_end(front), size, at)
}

/// The offset before offset `k`, where there is one.
fn offset_before(front: &[u8], k: u32) -> u64
    requires list { list_end front.now ≤ length front.now }
    requires there { k < item_count front.now }
    ensures { 0 < k → result ≡ offset front.now (k - 1) }
{
    if k > 0 { offset(front, k - 1) } else { 0 }
}

/// Whether an offset of a body is refused. `front` is the first bytes of the body with its offset
/// list, and `size` is the length of the body. Places count from `at`.
pub fn check_offsets(front: &[u8], size: u32, at: u32) -> Result<(), Refusal>
    requires small { at + size < 2 ^ 31 }
    requires list { list_end front.now ≤ length front.now }
    requires within { length front.now ≤ size }
    ensures ok { OnOk result (AreBounds front.now size) }
    ensures refused { (body : List ℕ) → Begins front.now size body →
        Answers result (first_refusal (all_offset_rows body at)) }
{
    for k in 0..item_count(front) {
        check_offset(front, size, at, k)?;
    }
    Ok(())
}

/// Where item `k` begins in a body of this front and size, and where the last one ends.
pub fn start_of(front: &[u8], size: usize, k: u32) -> usize
    requires list { list_end front.now ≤ length front.now }
    requires there { k ≤ item_count front.now }
    ensures { result ≡ start_of front.now size k }
{
    if k < item_count(front) {
        offset(front, k) as usize
    } else {
        size
    }
}

/// Whether an image item is refused. `head` is its first bytes, at least 48 of them or all, and
/// `size` is its length. Places count from `at`.
pub fn check_image(head: &[u8], size: u32, at: u32) -> Result<(), Refusal>
    requires there { min 48 size ≤ length head.now }
    requires within { length head.now ≤ size }
    requires small { at + size < 2 ^ 31 }
    ensures { (image : List ℕ) → Begins head.now size image →
        Answers result (first_refusal (image_rows image at)) }
{
    check_image_start(head, size, at)
}

/// The same by the first 32 bytes of the item, or all: they tell version and sizes.
pub fn check_image_start(start: &[u8], size: u32, at: u32) -> Result<(), Refusal>
    requires there { min 32 size ≤ length start.now }
    requires within { length start.now ≤ size }
    requires small { at + size < 2 ^ 31 }
    ensures { (image : List ℕ) → Begins start.now size image →
        Answers result (first_refusal (image_rows image at)) }
{
    let short = Refusal {
        at,
        why: Why::Short,
    };
    if size < IMAGE_HEADER_BYTES {
        return Err(short);
    }
    let version = u32_at(start, VERSION_AT);
    if !is_image_version(version) {
        return Err(Refusal {
            at,
            why: Why::BadImageVersion,
        });
    }
    let fixed = image_header_size(version);
    if size < fixed {
        return Err(short);
    }
    let parts = u32_at(start, IMAGE_SIZE_AT) as u64 + u32_at(start, VENDOR_SIZE_AT) as u64;
    if (size as u64) < fixed as u64 + parts {
        return Err(Refusal {
            at: at + IMAGE_SIZE_AT as u32,
            why: Why::ImageOutside,
        });
    }
    Ok(())
}
