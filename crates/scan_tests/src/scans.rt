//! Images that are given to a scan in pieces.

ghost use Rattle.std.specs.Prelude.{◌≡◌, ◌<◌, ◌≤◌, ◌^◌, length, IfOk};

use cu_base::{Blob, NoMemory};
use image_parts::{PartFault, PartRefusal, PartScan, PartSpans, PartWhy};
use std::alloc::Global;
use std::process::Abort;
use std::test::Fail;

/// A scan of the image, given in pieces of this size.
pub fn scanned(alloc: Global, image: &[u8], support: u64, size: usize) -> Result<PartScan, NoMemory>
    requires long { length image.now < 2 ^ 32 }
    requires some { 0 < size }
    ensures { IfOk result (λ scan. scan.came ≡ scan.size) }
{
    let mut scan = PartScan::new(alloc, image.len() as u32, support);
    let mut at = 0usize;
    while at < image.len() {
        let length = size.min(image.len() - at);
        scan.piece(&image[at..at + length])?;
        at += length;
    }
    Ok(scan)
}

/// A scan of the image in two pieces, and empty ones before, between and behind them.
pub fn scanned_at(
    alloc: Global,
    image: &[u8],
    support: u64,
    cut: usize,
) -> Result<PartScan, NoMemory>
    requires long { length image.now < 2 ^ 32 }
    requires within { cut ≤ length image.now }
    ensures { IfOk result (λ scan. scan.came ≡ scan.size) }
{
    let mut scan = PartScan::new(alloc, image.len() as u32, support);
    scan.piece(&[])?;
    scan.piece(&image[..cut])?;
    scan.piece(&[])?;
    scan.piece(&image[cut..])?;
    scan.piece(&[])?;
    Ok(scan)
}

/// The scan answers these places and lengths, and gives this section.
pub fn finds(rt: &impl Abort, alloc: Global, scan: &PartScan, spans: PartSpans, section: &[u8])
    requires { scan.now.came ≡ scan.now.size }
{
    match scan.end(alloc) {
        Ok(found) => {
            assert!(rt; found == spans);
            assert!(rt; scan.section() == section);
        }
        Err(refusal) => panic!(rt; "{refusal}"),
    }
}

/// The scan refuses the image at this place for this cause.
pub fn refuses(rt: &impl Abort, alloc: Global, scan: &PartScan, at: u32, why: PartWhy)
    requires { scan.now.came ≡ scan.now.size }
{
    match scan.end(alloc) {
        Ok(_) => panic!(rt; "accepted, and not refused at {at}: {why}"),
        Err(refusal) => assert_eq!(rt; refusal, PartRefusal::Part(PartFault { at, why })),
    }
}

/// The image is refused so, whole and in pieces of 1 and of 7 bytes.
pub fn refused(
    rt: &impl Abort,
    alloc: Global,
    image: &[u8],
    support: u64,
    at: u32,
    why: PartWhy,
) -> Result<(), Fail> {
    assert!(rt; image.len() < 0x1_0000_0000);
    for size in [1usize, 7, 0xffff_ffff] {
        assert!(rt; 0 < size);
        refuses(rt, alloc, &scanned(alloc, image, support, size)?, at, why);
    }
    Ok(())
}
