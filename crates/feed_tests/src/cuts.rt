//! The spans are the same for every cut into pieces.

use crate::capsules::{ONE_IMAGE, joined as both};
use crate::feeds::{fed, fed_at, joined, refuses};
use crate::spans::one_image;
use capsule_feed::{Events, Span};
use capsule_grammar::Why;
use std::test::Fail;

#[test]
fn each_cut_of_one_image(rt: HostRuntime) -> Result<(), Fail> {
    let alloc = rt.alloc();
    for cut in 0..111usize {
        let mut events = Events::new(alloc);
        assert!(&rt; fed_at(alloc, &ONE_IMAGE, cut, &mut events).is_ok());
        let spans = joined(&rt, alloc, events.as_slice());
        assert!(&rt; spans.as_slice() == one_image().as_slice());
    }
    Ok(())
}

#[test]
fn single_bytes_of_one_image(rt: HostRuntime) -> Result<(), Fail> {
    let alloc = rt.alloc();
    let mut events = Events::new(alloc);
    assert!(&rt; fed(alloc, &ONE_IMAGE, 1, &mut events).is_ok());
    let spans = joined(&rt, alloc, events.as_slice());
    assert!(&rt; spans.as_slice() == one_image().as_slice());
    Ok(())
}

#[test]
fn each_cut_of_two_capsules(rt: HostRuntime) -> Result<(), Fail> {
    let alloc = rt.alloc();
    let whole = both(alloc, &[&ONE_IMAGE, &ONE_IMAGE])?;
    let bytes = whole.as_slice();
    assert!(&rt; bytes.len() == 220);
    for cut in 0..221usize {
        let mut events = Events::new(alloc);
        assert!(&rt; fed_at(alloc, bytes, cut, &mut events).is_ok());
        let spans = joined(&rt, alloc, events.as_slice());
        assert!(&rt; spans.len() == 10);
        assert!(&rt; spans.as_slice()[..5] == one_image()[..]);
    }
    Ok(())
}

/// The same capsule with an image header of version 4, which its first 32 bytes tell.
#[test]
fn each_cut_of_a_refused_capsule(rt: HostRuntime) -> Result<(), Fail> {
    let alloc = rt.alloc();
    let mut bytes = ONE_IMAGE;
    bytes[44] = 4;
    for cut in 0..111usize {
        let mut events = Events::new(alloc);
        let answer = fed_at(alloc, &bytes, cut, &mut events);
        refuses(&rt, answer, 44, Why::BadImageVersion);
    }
    Ok(())
}

#[test]
fn two_capsules_in_pieces_of_seven(rt: HostRuntime) -> Result<(), Fail> {
    let alloc = rt.alloc();
    let whole = both(alloc, &[&ONE_IMAGE, &ONE_IMAGE])?;
    let bytes = whole.as_slice();
    assert!(&rt; bytes.len() == 220);
    let mut events = Events::new(alloc);
    assert!(&rt; fed(alloc, bytes, 7, &mut events).is_ok());
    let spans = joined(&rt, alloc, events.as_slice());
    let first = one_image();
    assert!(&rt; spans.len() == 10);
    assert!(&rt; spans.as_slice()[..5] == first[..]);
    for k in 0..5usize {
        let behind = Span {
            capsule: 1,
            at: first[k].at.saturating_add(110),
            ..first[k]
        };
        assert!(&rt; spans.at(5 + k) == Some(&behind));
    }
    Ok(())
}
