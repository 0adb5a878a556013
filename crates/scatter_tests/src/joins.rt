//! Data blocks joined, worked by hand.

use crate::walks::{lay, memory_of, walked};
use bench_model::Segments;
use cu_base::Blob;
use scatter_list::{CoalesceFault, coalesce};
use std::process::Abort;
use std::test::Fail;

/// The bytes of the list from 0x1000 on within a limit. A list with no shape fails the test.
fn joined(
    rt: &(impl Abort + AllocGlobal),
    memory: &Segments,
    limit: u32,
) -> Result<Blob, CoalesceFault> {
    match walked(memory, 0x1000) {
        Ok(list) => coalesce(rt.alloc(), memory, &list, limit),
        Err(_) => {
            assert!(rt; false, "the list has a shape");
            Ok(Blob::new(rt.alloc()))
        }
    }
}

/// Tests that the list from 0x1000 on gives these bytes.
fn gives(rt: &(impl Abort + AllocGlobal), memory: &Segments, want: &[u8]) {
    match joined(rt, memory, 65_536) {
        Ok(bytes) => assert!(rt; bytes.as_slice() == want, "the bytes"),
        Err(_) => assert!(rt; false, "it is joined"),
    }
}

/// Why the list from 0x1000 on is not joined within a limit, if it is not.
fn refusal(
    rt: &(impl Abort + AllocGlobal),
    memory: &Segments,
    limit: u32,
) -> Option<CoalesceFault> {
    joined(rt, memory, limit).err()
}

/// Memory with bytes at 0x2000 and then these descriptors.
fn memory_with(
    rt: &(impl Abort + AllocGlobal),
    bytes: &[u8],
    descriptors: &[(u64, u64, u64)],
) -> Result<Segments, Fail> {
    let mut memory = memory_of(rt, descriptors)?;
    assert_eq!(rt; memory.lay(0x2000, bytes), Ok(()));
    Ok(memory)
}

#[test]
fn blocks_are_joined_in_order(rt: HostRuntime) -> Result<(), Fail> {
    for (descriptors, want) in [
        (
            [(0x1000, 4, 0x2000), (0x1010, 4, 0x2000), (0x1020, 0, 0)].as_slice(),
            b"abcdabcd".as_slice(),
        ),
        (
            [(0x1000, 2, 0x2002), (0x1010, 1, 0x2000), (0x1020, 0, 0)].as_slice(),
            b"cda".as_slice(),
        ),
        (
            [
                (0x1000, 3, 0x2000),
                (0x1010, 0, 0x3000),
                (0x3000, 2, 0x2001),
                (0x3010, 0, 0),
            ]
            .as_slice(),
            b"abcbc".as_slice(),
        ),
        (
            [(0x1000, 16, 0x1000), (0x1010, 0, 0)].as_slice(),
            b"\x10\0\0\0\0\0\0\0\0\x10\0\0\0\0\0\0".as_slice(),
        ),
        (
            [(0x1000, 8, 0x1004), (0x1010, 0, 0)].as_slice(),
            b"\0\0\0\0\x04\x10\0\0".as_slice(),
        ),
        ([(0x1000, 0, 0)].as_slice(), b"".as_slice()),
    ] {
        let memory = memory_with(&rt, b"abcd", descriptors)?;
        gives(&rt, &memory, want);
    }
    Ok(())
}

#[test]
fn the_total_is_tested_before_a_block(rt: HostRuntime) -> Result<(), Fail> {
    let list = [(0x1000, 4, 0x2000), (0x1010, 5, 0x2000), (0x1020, 0, 0)];
    let memory = memory_with(&rt, b"abcd", &list)?;
    assert_eq!(rt; refusal(&rt, &memory, 8), Some(CoalesceFault::TooMuch));
    let missing = CoalesceFault::BlockUnreadable { descriptor: 0x1010 };
    assert_eq!(rt;
        refusal(&rt, &memory, 9),
        Some(missing),
        "one byte is missing"
    );
    let wide = [
        (0x1000, u64::MAX, 0x2000),
        (0x1010, u64::MAX, 0x2000),
        (0x1020, 0, 0),
    ];
    let memory = memory_with(&rt, b"abcd", &wide)?;
    assert_eq!(rt;
        refusal(&rt, &memory, u32::MAX),
        Some(CoalesceFault::TooMuch),
        "no sum wraps"
    );
    Ok(())
}

#[test]
fn the_limit_itself_is_not_too_much(rt: HostRuntime) -> Result<(), Fail> {
    let list = [(0x1000, 4, 0x2000), (0x1010, 0, 0)];
    let memory = memory_with(&rt, b"abcd", &list)?;
    assert_eq!(rt; refusal(&rt, &memory, 3), Some(CoalesceFault::TooMuch));
    assert_eq!(rt; refusal(&rt, &memory, 4), None);
    assert_eq!(rt; refusal(&rt, &memory, 5), None);
    Ok(())
}

#[test]
fn the_first_block_that_is_not_there_is_told(rt: HostRuntime) -> Result<(), Fail> {
    let list = [(0x1000, 4, 0x9000), (0x1010, 4, 0xA000), (0x1020, 0, 0)];
    let memory = memory_with(&rt, b"abcd", &list)?;
    let first = CoalesceFault::BlockUnreadable { descriptor: 0x1000 };
    assert_eq!(rt; refusal(&rt, &memory, 100), Some(first));
    let list = [
        (0x1000, 4, 0x2000),
        (0x1010, 0, 0x3000),
        (0x3000, 1, 0x9000),
        (0x3010, 0, 0),
    ];
    let memory = memory_with(&rt, b"abcd", &list)?;
    let second = CoalesceFault::BlockUnreadable { descriptor: 0x3000 };
    assert_eq!(rt; refusal(&rt, &memory, 100), Some(second));
    Ok(())
}

#[test]
fn a_byte_is_missing_in_the_middle_of_a_block(rt: HostRuntime) -> Result<(), Fail> {
    let list = [(0x1000, 6, 0x2000), (0x1010, 0, 0)];
    let mut memory = memory_with(&rt, b"abc", &list)?;
    assert_eq!(rt; memory.lay(0x2004, b"ef"), Ok(()));
    let missing = CoalesceFault::BlockUnreadable { descriptor: 0x1000 };
    assert_eq!(rt; refusal(&rt, &memory, 100), Some(missing));
    assert_eq!(rt; memory.lay(0x2003, b"d"), Ok(()));
    gives(&rt, &memory, b"abcdef");
    assert_eq!(rt; memory.lay(0x2001, b"XY"), Ok(()));
    gives(&rt, &memory, b"aXYdef");
    Ok(())
}

#[test]
fn a_block_at_the_end_of_memory(rt: HostRuntime) -> Result<(), Fail> {
    let end = 0xFFFF_FFFF_FFFF_FFFB;
    let mut memory = memory_of(&rt, &[(0x1000, 4, end), (0x1010, 0, 0)])?;
    assert_eq!(rt; memory.lay(end, b"last"), Ok(()));
    gives(&rt, &memory, b"last");
    lay(&rt, &mut memory, (0x1000, 5, end))?;
    let missing = CoalesceFault::BlockUnreadable { descriptor: 0x1000 };
    assert_eq!(rt; refusal(&rt, &memory, 100), Some(missing));
    lay(&rt, &mut memory, (0x1000, 5, u64::MAX))?;
    assert_eq!(rt; refusal(&rt, &memory, 100), Some(missing));
    Ok(())
}

#[test]
fn a_block_of_many_pieces(rt: HostRuntime) -> Result<(), Fail> {
    let mut long = [7; 10_000];
    long[4_095] = 1;
    long[4_096] = 2;
    long[4_097] = 3;
    long[9_999] = 4;
    let list = [(0x1000, 10_000, 0x2000), (0x1010, 0, 0)];
    let mut memory = memory_of(&rt, &list)?;
    assert_eq!(rt; memory.lay(0x2000, &long[..4_096]), Ok(()));
    assert_eq!(rt; memory.lay(0x3001, &long[4_097..]), Ok(()));
    let missing = CoalesceFault::BlockUnreadable { descriptor: 0x1000 };
    assert_eq!(rt;
        refusal(&rt, &memory, 10_000),
        Some(missing),
        "the first byte of a piece"
    );
    assert_eq!(rt; memory.lay(0x3000, &long[4_096..4_097]), Ok(()));
    gives(&rt, &memory, &long);
    Ok(())
}
