//! Lists of 65,536 descriptors and one less or more.

use crate::walks::walked;
use bench_model::Segments;
use cu_base::{Blob, put_u64};
use scatter_list::{Shape, ShapeFault};
use std::process::Abort;
use std::test::Fail;

/// Where the lists begin.
const ROOT: u64 = 0x10000;

/// Descriptors of one byte each from 0x10000 on, and one more of this Length and pointer.
fn long_list(
    rt: &(impl Abort + AllocGlobal),
    before: u32,
    length: u64,
    pointer: u64,
) -> Result<Segments, Fail> {
    let mut bytes = Blob::new(rt.alloc());
    for _ in 0..before {
        put_u64(&mut bytes, 1)?;
        put_u64(&mut bytes, 0x20)?;
    }
    put_u64(&mut bytes, length)?;
    put_u64(&mut bytes, pointer)?;
    let mut memory = Segments::new(rt.alloc());
    assert_eq!(rt; memory.lay(ROOT, bytes.as_slice()), Ok(()));
    Ok(memory)
}

/// The shape of a list of one byte a descriptor but the last.
fn whole(descriptors: u32) -> Result<Shape, ShapeFault> {
    Ok(Shape {
        root: ROOT,
        descriptors,
        total: (descriptors as u128).saturating_sub(1),
    })
}

#[test]
fn an_end_mark_at_the_last_index_and_behind_it(rt: HostRuntime) -> Result<(), Fail> {
    for (before, want) in [
        (65_534, whole(65_535)),
        (65_535, whole(65_536)),
        (65_536, Err(ShapeFault::TooLong)),
    ] {
        let memory = long_list(&rt, before, 0, 0)?;
        assert_eq!(rt; walked(&memory, ROOT), want, "behind {before} descriptors");
    }
    Ok(())
}

#[test]
fn continuations_at_the_last_index_and_behind_it(rt: HostRuntime) -> Result<(), Fail> {
    let last = ROOT + 16 * 65_534;
    for (what, before, to, want) in [
        (
            "65,536 descriptors, the first again",
            65_535,
            ROOT,
            Err(ShapeFault::Cycle { at: ROOT }),
        ),
        (
            "65,537 descriptors, the first again",
            65_536,
            ROOT,
            Err(ShapeFault::TooLong),
        ),
        (
            "65,536 descriptors, a late one again",
            65_535,
            last,
            Err(ShapeFault::Cycle { at: last }),
        ),
        (
            "65,537 descriptors, a late one again",
            65_536,
            last,
            Err(ShapeFault::TooLong),
        ),
        (
            "an odd address at index 65,535",
            65_534,
            0x1004,
            Err(ShapeFault::Misaligned { at: 0x1004 }),
        ),
        (
            "an odd address at index 65,536",
            65_535,
            0x1004,
            Err(ShapeFault::TooLong),
        ),
        (
            "nothing at index 65,535",
            65_534,
            0x1000,
            Err(ShapeFault::Unreadable { at: 0x1000 }),
        ),
        (
            "nothing at index 65,536",
            65_535,
            0x1000,
            Err(ShapeFault::TooLong),
        ),
    ] {
        let memory = long_list(&rt, before, 0, to)?;
        assert_eq!(rt; walked(&memory, ROOT), want, "at {what}");
    }
    Ok(())
}
