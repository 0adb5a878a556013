//! Walks: lists of a few descriptors, worked by hand.

ghost use Rattle.std.specs.Prelude.{◌≡◌, Some, Ok, IfOk};
ghost use Rattle.scatter_list.specs.Walk.{walk};

use bench_model::Segments;
use cu_base::{Blob, CountLedger, Steps, put_u64};
use scatter_list::{Shape, ShapeFault, shape};
use std::process::Abort;
use std::test::Fail;

/// A descriptor: its address, its Length, and its DataBlock or ContinuationPointer.
pub type Laid = (u64, u64, u64);

/// Lays a descriptor.
pub fn lay(
    rt: &(impl Abort + AllocGlobal),
    memory: &mut Segments,
    descriptor: Laid,
) -> Result<(), Fail> {
    let (at, length, pointer) = descriptor;
    let mut bytes = Blob::new(rt.alloc());
    put_u64(&mut bytes, length)?;
    put_u64(&mut bytes, pointer)?;
    assert_eq!(rt; memory.lay(at, bytes.as_slice()), Ok(()));
    Ok(())
}

/// Memory with these descriptors, laid one after another.
pub fn memory_of(rt: &(impl Abort + AllocGlobal), descriptors: &[Laid]) -> Result<Segments, Fail> {
    let mut memory = Segments::new(rt.alloc());
    for descriptor in descriptors {
        lay(rt, &mut memory, *descriptor)?;
    }
    Ok(memory)
}

/// The outcome of the walk from an address on.
pub fn walked(memory: &Segments, root: u64) -> Result<Shape, ShapeFault>
    ensures rule { IfOk result (λ list. walk memory.now list.root ≡ Some (Ok list)) }
{
    shape(memory, root, &mut Steps::new(CountLedger { count: 0 }))
}

/// The shape of a list at 0x1000.
fn at_1000(descriptors: u32, total: u128) -> Result<Shape, ShapeFault> {
    Ok(Shape {
        root: 0x1000,
        descriptors,
        total,
    })
}

#[test]
fn the_first_test_that_holds_ends_a_walk(rt: HostRuntime) -> Result<(), Fail> {
    for (what, descriptors, want) in [
        (
            "a root where nothing lies",
            [].as_slice(),
            Err(ShapeFault::Unreadable { at: 0x1000 }),
        ),
        (
            "the end mark alone",
            [(0x1000, 0, 0)].as_slice(),
            at_1000(1, 0),
        ),
        (
            "a continuation to itself",
            [(0x1000, 0, 0x1000)].as_slice(),
            Err(ShapeFault::Cycle { at: 0x1000 }),
        ),
        (
            "a cycle of two from the root",
            [(0x1000, 0, 0x2000), (0x2000, 0, 0x1000)].as_slice(),
            Err(ShapeFault::Cycle { at: 0x1000 }),
        ),
        (
            "a cycle of one behind the root",
            [(0x1000, 0, 0x2000), (0x2000, 0, 0x2000)].as_slice(),
            Err(ShapeFault::Cycle { at: 0x2000 }),
        ),
        (
            "a cycle from the root that closes late",
            [(0x1000, 1, 0x20), (0x1010, 1, 0x20), (0x1020, 0, 0x1000)].as_slice(),
            Err(ShapeFault::Cycle { at: 0x1000 }),
        ),
        (
            "a cycle that begins late",
            [(0x1000, 1, 0x20), (0x1010, 1, 0x20), (0x1020, 0, 0x1010)].as_slice(),
            Err(ShapeFault::Cycle { at: 0x1010 }),
        ),
        (
            "a continuation to an address that is no multiple of 8",
            [(0x1000, 0, 0x1004)].as_slice(),
            Err(ShapeFault::Misaligned { at: 0x1004 }),
        ),
        (
            "a continuation to where nothing lies",
            [(0x1000, 0, 0x2000)].as_slice(),
            Err(ShapeFault::Unreadable { at: 0x2000 }),
        ),
        (
            "no end mark behind a block",
            [(0x1000, 1, 0x20)].as_slice(),
            Err(ShapeFault::Unreadable { at: 0x1010 }),
        ),
        (
            "a continuation to its own address plus 16",
            [(0x1000, 0, 0x1010), (0x1010, 0, 0)].as_slice(),
            at_1000(2, 0),
        ),
        (
            "a continuation backwards",
            [(0x1000, 3, 0x20), (0x1010, 0, 0x800), (0x800, 0, 0)].as_slice(),
            at_1000(3, 3),
        ),
        (
            "a block of no bytes is a continuation",
            [(0x1000, 0, 0x20), (0x20, 0, 0)].as_slice(),
            at_1000(2, 0),
        ),
        (
            "a block at address 0",
            [(0x1000, 5, 0), (0x1010, 0, 0)].as_slice(),
            at_1000(2, 5),
        ),
        (
            "lengths whose sum passes 2^64",
            [
                (0x1000, u64::MAX, 0x20),
                (0x1010, u64::MAX, 0x20),
                (0x1020, 0, 0),
            ]
            .as_slice(),
            at_1000(3, 36_893_488_147_419_103_230),
        ),
        (
            "a descriptor that hides an earlier one",
            [(0x1000, 0, 0x1000), (0x1000, 0, 0)].as_slice(),
            at_1000(1, 0),
        ),
        (
            "a block referenced twice is no cycle",
            [(0x1000, 4, 0x2000), (0x1010, 4, 0x2000), (0x1020, 0, 0)].as_slice(),
            at_1000(3, 8),
        ),
    ] {
        let memory = memory_of(&rt, descriptors)?;
        assert_eq!(rt; walked(&memory, 0x1000), want, "at {what}");
    }
    Ok(())
}

#[test]
fn a_root_that_is_no_multiple_of_8(rt: HostRuntime) -> Result<(), Fail> {
    let memory = memory_of(&rt, &[(0x1000, 0, 0), (0x1010, 0, 0)])?;
    for root in [0x1001, 0x1004, 0x1007, 0x9004] {
        assert_eq!(rt;
            walked(&memory, root),
            Err(ShapeFault::Misaligned { at: root })
        );
    }
    let second = Shape {
        root: 0x1008,
        descriptors: 1,
        total: 0,
    };
    assert_eq!(rt; walked(&memory, 0x1008), Ok(second), "of both end marks");
    Ok(())
}

#[test]
fn a_descriptor_across_two_segments(rt: HostRuntime) -> Result<(), Fail> {
    let mut memory = memory_of(&rt, &[(0x3000, 0, 0)])?;
    assert_eq!(rt; memory.lay(0x1000, &[0; 9]), Ok(()));
    let missing = Err(ShapeFault::Unreadable { at: 0x1000 });
    assert_eq!(rt; walked(&memory, 0x1000), missing, "7 bytes are missing");
    assert_eq!(rt; memory.lay(0x100A, &[0; 6]), Ok(()));
    assert_eq!(rt; walked(&memory, 0x1000), missing, "one byte is missing");
    assert_eq!(rt; memory.lay(0x1009, &[0x30]), Ok(()));
    assert_eq!(rt; walked(&memory, 0x1000), at_1000(2, 0), "to 0x3000");
    assert_eq!(rt; memory.lay(0x1007, &[0x80]), Ok(()));
    assert_eq!(rt; memory.lay(0x1010, &[0; 16]), Ok(()));
    assert_eq!(rt;
        walked(&memory, 0x1000),
        at_1000(2, 9_223_372_036_854_775_808),
        "one byte is hidden"
    );
    Ok(())
}

#[test]
fn descriptors_at_the_end_of_memory(rt: HostRuntime) -> Result<(), Fail> {
    let mut memory = memory_of(&rt, &[(0xFFFF_FFFF_FFFF_FFE8, 0, 0)])?;
    let last = Shape {
        root: 0xFFFF_FFFF_FFFF_FFE8,
        descriptors: 1,
        total: 0,
    };
    assert_eq!(rt; walked(&memory, 0xFFFF_FFFF_FFFF_FFE8), Ok(last));
    assert_eq!(rt; memory.lay(0xFFFF_FFFF_FFFF_FFF0, &[0; 15]), Ok(()));
    for at in [0xFFFF_FFFF_FFFF_FFF0, 0xFFFF_FFFF_FFFF_FFF8] {
        assert_eq!(rt; walked(&memory, at), Err(ShapeFault::Unreadable { at }));
    }
    Ok(())
}
