//! Reads of memory.

use bench_model::{LayFault, PhysMem, Segments};
use std::process::Abort;

#[test]
fn a_later_segment_hides_earlier_ones(rt: HostRuntime) {
    let mut memory = Segments::new(rt.alloc());
    assert_eq!(rt; memory.lay(0x100, b"abcdefgh"), Ok(()));
    assert_eq!(rt; memory.lay(0x102, b"CD"), Ok(()));
    assert_eq!(rt; memory.lay(0x103, b"4"), Ok(()));
    assert_eq!(rt; memory.lay(0xFE, b"yzA"), Ok(()));
    for (at, want) in [
        (0xFE, b"yzAbC4efgh".as_slice()),
        (0x100, b"AbC4efgh".as_slice()),
        (0x103, b"4".as_slice()),
        (0x104, b"efg".as_slice()),
        (0x103, b"4efg".as_slice()),
        (0x400, b"".as_slice()),
    ] {
        let mut out = [0; 10];
        assert!(rt; memory.read(at, &mut out[..want.len()]), "at {at}");
        let read = &out[..want.len()];
        assert!(rt; read == want, "at {at}");
    }
}

#[test]
fn a_read_of_bytes_that_are_not_there_changes_nothing(rt: HostRuntime) {
    let mut memory = Segments::new(rt.alloc());
    assert_eq!(rt; memory.lay(0x100, b"ab"), Ok(()));
    assert_eq!(rt; memory.lay(0x103, b"de"), Ok(()));
    for at in [0x0, 0xFD, 0xFF, 0x100, 0x101, 0x102, 0x103, 0x104, 0x105] {
        let mut out = *b"...";
        assert!(rt; !memory.read(at, &mut out), "at {at}");
        assert!(rt; out == *b"...", "at {at}");
    }
    assert_eq!(rt; memory.lay(0x102, b"c"), Ok(()));
    let mut out = *b".....";
    assert!(rt; memory.read(0x100, &mut out));
    assert!(rt; out == *b"abcde");
}

#[test]
fn reads_at_the_end_of_memory(rt: HostRuntime) {
    let mut memory = Segments::new(rt.alloc());
    assert_eq!(rt; memory.lay(u64::MAX - 3, b"abc"), Ok(()));
    assert_eq!(rt; memory.lay(u64::MAX - 3, b"abcd"), Err(LayFault::Wraps));
    assert_eq!(rt; memory.lay(u64::MAX, b""), Ok(()), "no bytes wrap nowhere");
    let mut out = *b"...";
    assert!(rt; memory.read(u64::MAX - 3, &mut out));
    assert!(rt; out == *b"abc");
    let mut out = *b"....";
    assert!(rt;
        !memory.read(u64::MAX - 3, &mut out),
        "the last address is never there"
    );
    assert!(rt; !memory.read(u64::MAX, &mut out[..1]));
    assert!(rt; memory.read(u64::MAX, &mut out[..0]));
    assert!(rt; out == *b"....");
}
