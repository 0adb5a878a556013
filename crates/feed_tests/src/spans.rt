//! The spans of a delivery.

use crate::capsules::ONE_IMAGE;
use crate::feeds::fed;
use capsule_feed::{Events, Span, SpanKind};
use std::test::Fail;

/// A span of the first capsule.
pub fn span(kind: SpanKind, at: u32, length: u32) -> Span {
    Span {
        kind,
        capsule: 0,
        item: 0,
        at,
        length,
    }
}

/// The spans of ONE_IMAGE.
pub fn one_image() -> [Span; 5] {
    [
        span(SpanKind::Header, 0, 28),
        span(SpanKind::FmpHead, 28, 8),
        span(SpanKind::Offsets, 36, 8),
        span(SpanKind::ImageHead, 44, 48),
        span(SpanKind::Image, 92, 18),
    ]
}

#[test]
fn one_image_in_one_piece(rt: HostRuntime) -> Result<(), Fail> {
    let alloc = rt.alloc();
    let mut events = Events::new(alloc);
    assert!(&rt; fed(alloc, &ONE_IMAGE, 110, &mut events).is_ok());
    assert!(&rt; events.as_slice() == one_image().as_slice());
    Ok(())
}

#[test]
fn one_image_in_single_bytes(rt: HostRuntime) -> Result<(), Fail> {
    let alloc = rt.alloc();
    let mut events = Events::new(alloc);
    assert!(&rt; fed(alloc, &ONE_IMAGE, 1, &mut events).is_ok());
    assert!(&rt; events.len() == 110);
    let mut place = 0u32;
    for event in events.as_slice() {
        assert!(&rt; event.at == place);
        assert!(&rt; event.length == 1);
        place = place.saturating_add(1);
    }
    Ok(())
}
