//! A delivery of the most items.

use crate::capsules::joined as both;
use crate::feeds::{fed, joined};
use capsule_feed::{Events, Span, SpanKind};
use cu_base::{Blob, NoMemory, put_u64};
use std::alloc::Global;
use std::test::Fail;

/// CapsuleGuid of FMP capsules, HeaderSize 28, Flags 0, CapsuleImageSize 2,621,436; Version 1, no
/// driver, 65,535 items.
const FRONT: [u8; 36] = [
    0xed, 0xd5, 0xcb, 0x6d, 0x2d, 0xe8, 0x44, 0x4c, 0xbd, 0xa1, 0x71, 0x94, 0x19, 0x9a, 0xd9, 0x2a,
    28, 0, 0, 0, 0, 0, 0, 0, 0xfc, 0xff, 0x27, 0, 1, 0, 0, 0, 0, 0, 0xff, 0xff,
];

/// An image header of version 1 without an image.
const IMAGE: [u8; 32] = [
    1, 0, 0, 0, 0, 0, 0, 0, 0, 0, 0, 0, 0, 0, 0, 0, 0, 0, 0, 0, 0, 0, 0, 0, 0, 0, 0, 0, 0, 0, 0, 0,
];

/// The capsule: its offsets begin behind the list, at 524,288.
fn most_items(alloc: Global) -> Result<Blob, NoMemory> {
    let mut bytes = both(alloc, &[&FRONT])?;
    for k in 0..65_535u64 {
        put_u64(&mut bytes, 524_288 + 32 * k)?;
    }
    for _ in 0..65_535 {
        bytes.push_slice(&IMAGE)?;
    }
    Ok(bytes)
}

/// The last span.
const LAST: Span = Span {
    kind: SpanKind::ImageHead,
    capsule: 0,
    item: 65_534,
    at: 2_621_404,
    length: 32,
};

#[test]
fn the_most_items_in_pieces(rt: HostRuntime) -> Result<(), Fail> {
    let alloc = rt.alloc();
    let capsule = most_items(alloc)?;
    let whole = capsule.as_slice();
    assert!(&rt; whole.len() == 2_621_436);
    for size in [1usize, 7, 65_536] {
        let mut events = Events::new(alloc);
        assert!(&rt; size > 0);
        assert!(&rt;
            fed(alloc, whole, size, &mut events).is_ok(),
            "pieces of {size}"
        );
        let spans = joined(&rt, alloc, events.as_slice());
        assert!(&rt; spans.len() == 65_538, "pieces of {size}");
        assert!(&rt; spans.at(65_537) == Some(&LAST), "pieces of {size}");
    }
    Ok(())
}
