//! Lists that are laid, and walked and joined again.

ghost use Rattle.std.specs.Prelude.{◌≡◌, ◌%◌, ◌<◌, length};
ghost use Rattle.scatter_list.specs.Laid.{AreApart};

use crate::walks::walked;
use bench_model::{LayFault, PhysMem, Segments};
use scatter_list::{Shape, coalesce, lay_list};
use std::process::Abort;
use std::test::Fail;

/// Lays bytes at 0x2000 and the list for them at 0x1000, and tests that the walk has so many
/// descriptors and that the bytes are given back.
fn gives_back(rt: &(impl Abort + AllocGlobal), bytes: &[u8], block: u32, descriptors: u32)
    requires some { 0 < block }
    requires apart { AreApart 0x1000 0x2000 (length bytes.now) block }
{
    let mut memory = Segments::new(rt.alloc());
    assert_eq!(rt;
        lay_list(rt.alloc(), &mut memory, 0x1000, 0x2000, bytes, block),
        Ok(())
    );
    let want = Shape {
        root: 0x1000,
        descriptors,
        total: bytes.len() as u128,
    };
    match walked(&memory, 0x1000) {
        Ok(list) => {
            assert_eq!(rt; list, want);
            match coalesce(rt.alloc(), &memory, &list, 100) {
                Ok(joined) => assert!(rt; joined.as_slice() == bytes, "the bytes"),
                Err(_) => assert!(rt; false, "it is joined"),
            }
        }
        Err(_) => assert!(rt; false, "the list has a shape"),
    }
}

#[test]
fn a_laid_list_gives_its_bytes(rt: HostRuntime) {
    gives_back(&rt, b"abcde", 2, 4);
    gives_back(&rt, b"abcde", 1, 6);
    gives_back(&rt, b"abcde", 4, 3);
    gives_back(&rt, b"abcde", 5, 2);
    gives_back(&rt, b"abcde", 6, 2);
    gives_back(&rt, b"abcdef", 3, 3);
    gives_back(&rt, b"", 3, 1);
}

#[test]
fn the_descriptors_of_a_laid_list(rt: HostRuntime) {
    let mut memory = Segments::new(rt.alloc());
    assert_eq!(rt;
        lay_list(rt.alloc(), &mut memory, 0x1000, 0x2000, b"abcde", 2),
        Ok(())
    );
    let mut bytes = [0xFF; 64];
    assert!(rt; memory.read(0x1000, &mut bytes));
    let want = [
        [2, 0, 0, 0, 0, 0, 0, 0, 0x00, 0x20, 0, 0, 0, 0, 0, 0],
        [2, 0, 0, 0, 0, 0, 0, 0, 0x02, 0x20, 0, 0, 0, 0, 0, 0],
        [1, 0, 0, 0, 0, 0, 0, 0, 0x04, 0x20, 0, 0, 0, 0, 0, 0],
        [0; 16],
    ];
    for (i, descriptor) in want.iter().enumerate() {
        assert!(rt; bytes[16 * i..16 * i + 16] == descriptor[..], "at {i}");
    }
    let mut more = [0];
    assert!(rt;
        !memory.read(0x1040, &mut more),
        "nothing behind the end mark"
    );
}

#[test]
fn lists_that_are_not_laid(rt: HostRuntime) {
    let alloc = rt.alloc();
    let mut memory = Segments::new(alloc);
    let last = u64::MAX;
    assert_eq!(rt;
        lay_list(alloc, &mut memory, 0x1000, last, b"a", 1),
        Err(LayFault::Wraps)
    );
    assert!(rt; memory.as_slice().is_empty(), "nothing was laid");
    let end = 0xFFFF_FFFF_FFFF_FFF0;
    assert_eq!(rt;
        lay_list(alloc, &mut memory, end, 0x2000, b"a", 1),
        Err(LayFault::Wraps)
    );
    assert_eq!(rt; memory.as_slice().len(), 1, "the bytes were laid");
    for _ in 0..254 {
        assert_eq!(rt; memory.lay(0, &[]), Ok(()));
    }
    assert_eq!(rt;
        lay_list(alloc, &mut memory, 0x1000, 0x2000, b"a", 1),
        Err(LayFault::Full)
    );
    assert_eq!(rt; memory.as_slice().len(), 256, "the bytes were laid");
    assert_eq!(rt;
        lay_list(alloc, &mut memory, 0x1000, 0x2000, b"a", 1),
        Err(LayFault::Full)
    );
    assert_eq!(rt; memory.as_slice().len(), 256, "nothing was laid");
}
