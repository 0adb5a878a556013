//! The scan of the body of an FMP capsule.

ghost use Rattle.std.specs.Prelude.{◌≡◌, ℕ, ◌+◌, ◌-◌, ◌^◌, ◌≤◌, ◌<◌, List, [], length, None, Err};
ghost use Rattle.std.specs.Prelude.{IfOk, IfErr};
ghost use Rattle.cu_base.specs.Refusals.{first_refusal};
ghost use Rattle.cu_io.specs.Streams.{Goes};
ghost use Rattle.capsule_grammar.specs.Accepted.{AreBounds};
ghost use Rattle.capsule_grammar.specs.Fronts.{Begins};
ghost use Rattle.capsule_grammar.specs.Refusals.{list_end, fmp_rows, fmp_front_rows};
ghost use Rattle.capsule_grammar.specs.Refusals.{all_image_rows};
ghost use Rattle.capsule_tool.specs.Scans.{Scans, ScansImage, IsStop};

use super::stop::ScanStop;
use capsule_grammar::{
    check_fmp_header, check_image, check_offsets, driver_count, image_count, item_count, start_of,
};
use cu_base::Blob;
use cu_io::{Source, Stream};
use fmp_headers::FMP_HEADER_BYTES;
use std::alloc::Global;

/// The most bytes of an image header.
const MAX_IMAGE_HEADER_BYTES: u32 = 48;

/// Scans the body of an FMP capsule, of `size` bytes. Places of a refusal count from `at`.
pub fn scan_body<S: Source>(
    alloc: Global,
    stream: &mut Stream<S>,
    size: u32,
    at: u32,
) -> Result<(), ScanStop>
    requires small { at + size < 2 ^ 31 }
    requires place { stream.old.place + size < 2 ^ 63 }
    ensures scan { Scans size (λ body. fmp_rows body at) [] stream.old stream.new result }
    ensures counts { stream.old.faults ≤ stream.new.faults }
{
    let front = scan_front(alloc, stream, size, at)?;
    check_offsets(front.as_slice(), size, at)?;
    scan_images(stream, front.as_slice(), size, at)
}

/// The FMP header and the offset list.
fn scan_front<S: Source>(
    alloc: Global,
    stream: &mut Stream<S>,
    size: u32,
    at: u32,
) -> Result<Blob, ScanStop>
    requires small { at + size < 2 ^ 31 }
    requires place { stream.old.place + size < 2 ^ 63 }
    ensures front { IfOk result (λ front. Goes front stream.old stream.new) }
    ensures list { IfOk result (λ front. length front ≡ list_end front) }
    ensures within { IfOk result (λ front. length front ≤ size) }
    ensures rows { IfOk result (λ front. (body : List ℕ) → Begins front size body
        → first_refusal (fmp_front_rows body at) ≡ None) }
    ensures stop { IfErr result (λ stop. Scans {X = List ℕ} size (λ body. fmp_front_rows body at) []
        stream.old stream.new (Err stop)) }
    ensures counts { stream.old.faults ≤ stream.new.faults }
{
    let mut head = [0u8; FMP_HEADER_BYTES as usize];
    let head = &mut head[..FMP_HEADER_BYTES.min(size) as usize];
    stream.fill(head)?;
    check_fmp_header(head, size, at)?;
    let mut front = Blob::from_slice(alloc, head)?;
    let list = next_bytes(alloc, stream, 8 * item_count(head) as usize)?;
    front.push_slice(list.as_slice())?;
    Ok(front)
}

/// The next `size` bytes.
fn next_bytes<S: Source>(
    alloc: Global,
    stream: &mut Stream<S>,
    size: usize,
) -> Result<Vec<u8>, ScanStop>
    requires place { stream.old.place + size < 2 ^ 63 }
    ensures ok { IfOk result (λ bytes. (length bytes.items ≡ size)
        × Goes bytes.items stream.old stream.new) }
    ensures stop { IfErr result (λ stop. IsStop size stream.old stream.new stop) }
    ensures counts { stream.old.faults ≤ stream.new.faults }
{
    let Ok(mut bytes) = Vec::from_elem(alloc, 0u8, size) else {
        return Err(ScanStop::Memory);
    };
    stream.fill(bytes.as_mut_slice())?;
    Ok(bytes)
}

/// Scans the images behind the front of a body, which was read.
fn scan_images<S: Source>(
    stream: &mut Stream<S>,
    front: &[u8],
    size: u32,
    at: u32,
) -> Result<(), ScanStop>
    requires small { at + size < 2 ^ 31 }
    requires place { stream.old.place + size < 2 ^ 63 + length front.now }
    requires list { length front.now ≡ list_end front.now }
    requires within { length front.now ≤ size }
    requires places { AreBounds front.now size }
    ensures scan { Scans size (λ body. all_image_rows body at) front.now stream.old stream.new
        result }
    ensures counts { stream.old.faults ≤ stream.new.faults }
{
    let drivers = driver_count(front) as u32;
    let images = image_count(front) as u32;
    let mut here = front.len() as u32;
    for k in drivers..drivers + images {
        let from = start_of(front, size as usize, k) as u32;
        let to = start_of(front, size as usize, k + 1) as u32;
        here = from + scan_image(stream, from - here, to - from, at + from)?;
    }
    Ok(())
}

/// Scans an image item of `size` bytes that begins `ahead` bytes ahead, and tells how many bytes of
/// it came.
fn scan_image<S: Source>(
    stream: &mut Stream<S>,
    ahead: u32,
    size: u32,
    at: u32,
) -> Result<u32, ScanStop>
    requires small { at + size < 2 ^ 31 }
    requires near { ahead < 2 ^ 31 }
    requires place { stream.old.place + ahead + size < 2 ^ 63 }
    ensures scan { ScansImage ahead size at stream.old stream.new result }
    ensures counts { stream.old.faults ≤ stream.new.faults }
{
    let there = size.min(MAX_IMAGE_HEADER_BYTES);
    let mut head = [0u8; MAX_IMAGE_HEADER_BYTES as usize];
    let head = &mut head[..there as usize];
    stream.pass(ahead as u64)?;
    stream.fill(head)?;
    check_image(head, size, at)?;
    Ok(there)
}
