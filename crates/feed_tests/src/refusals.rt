//! A refusal is told where its place is reached.

use crate::capsules::{ONE_IMAGE, joined};
use crate::feeds::{fed, refuses};
use capsule_feed::{Events, Feed};
use capsule_grammar::Why;
use std::test::Fail;

/// GUID of no FMP capsule, HeaderSize 28, Flags 0, CapsuleImageSize 28.
const BARE: [u8; 28] = [
    1, 2, 3, 4, 5, 6, 7, 8, 9, 10, 11, 12, 13, 14, 15, 16, 28, 0, 0, 0, 0, 0, 0, 0, 28, 0, 0, 0,
];

#[test]
fn each_prefix_of_one_image(rt: HostRuntime) -> Result<(), Fail> {
    let alloc = rt.alloc();
    for size in 0..110usize {
        let mut events = Events::new(alloc);
        let answer = fed(alloc, &ONE_IMAGE[..size], 110, &mut events);
        if size < 28 {
            refuses(&rt, answer, 0, Why::Short);
        } else {
            refuses(&rt, answer, 24, Why::BadImageSize);
        }
        assert!(&rt; events.len() == if size == 0 { 0 } else { 1 });
    }
    Ok(())
}

#[test]
fn nine_capsules(rt: HostRuntime) -> Result<(), Fail> {
    let alloc = rt.alloc();
    let eight = joined(
        alloc,
        &[&BARE, &BARE, &BARE, &BARE, &BARE, &BARE, &BARE, &BARE],
    )?;
    let bytes = eight.as_slice();
    assert!(&rt; bytes.len() == 224);
    let mut events = Events::new(alloc);
    assert!(&rt; fed(alloc, bytes, 1, &mut events).is_ok());
    let mut feed = Feed::new(alloc, 252);
    let mut more = Events::new(alloc);
    refuses(&rt, feed.feed(bytes, &mut more), 224, Why::TooManyCapsules);
    assert!(&rt; more.len() == 8);
    Ok(())
}

#[test]
fn unknown_version_of_an_image(rt: HostRuntime) -> Result<(), Fail> {
    let alloc = rt.alloc();
    let mut bytes = ONE_IMAGE;
    bytes[44] = 4;
    let mut feed = Feed::new(alloc, 110);
    let mut events = Events::new(alloc);
    assert!(&rt; feed.feed(&bytes[..75], &mut events).is_ok());
    assert!(&rt; events.len() == 4);
    let answer = feed.feed(&bytes[75..76], &mut events);
    refuses(&rt, answer, 44, Why::BadImageVersion);
    assert!(&rt; events.len() == 5);
    let again = feed.feed(&bytes[76..], &mut events);
    refuses(&rt, again, 44, Why::BadImageVersion);
    assert!(&rt; events.len() == 5);
    Ok(())
}
