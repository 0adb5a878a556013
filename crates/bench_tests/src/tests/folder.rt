//! Cases of the folder and of the memory.

use super::{arm, bench, cycle, fail};
use bench_model::{
    Bench, Choice, LayFault, MAX_FILE_BYTES, PhysMem, Segments, Volume, VolumeFault, is_file_name,
};
use cu_base::{Failed, NoMemory, Text};
use mem_bench::MemBench;
use std::process::Abort;
use std::test::Fail;

/// Puts a file into the folder.
fn put_bytes(
    rt: &(impl Abort + AllocGlobal),
    bench: &mut MemBench,
    name: &str,
    bytes: &[u8],
) -> Result<Result<u64, VolumeFault>, NoMemory> {
    assert!(rt; is_file_name(name), "a file's name");
    assert!(rt; bytes.len() <= MAX_FILE_BYTES as usize, "a file's size");
    let name = Text::from_str(rt.alloc(), name)?;
    Ok(bench.put(rt.alloc(), &name, bytes))
}

/// Puts a file of one byte into the folder.
fn put(
    rt: &(impl Abort + AllocGlobal),
    bench: &mut MemBench,
    name: &str,
    byte: u8,
) -> Result<Result<u64, VolumeFault>, NoMemory> {
    put_bytes(rt, bench, name, &[byte])
}

/// The name, serial and size of the only file, or none where there is no file.
fn only_file(
    rt: &(impl Abort + AllocGlobal),
    bench: &mut MemBench,
    name: &str,
) -> Result<Option<(u64, u32)>, VolumeFault> {
    let listing = bench.list(rt.alloc())?;
    assert!(rt; listing.len() <= 1, "one file at most");
    match listing.at(0) {
        Some(file) => {
            assert!(rt; file.name.as_str() == name, "the name of the file");
            Ok(Some((file.serial, file.size)))
        }
        None => Ok(None),
    }
}

/// Takes a file out of the folder.
fn remove(rt: &impl Abort, bench: &mut MemBench, serial: u64) -> Result<(), Failed> {
    assert!(rt; bench.has_file(serial), "a file");
    bench.remove(serial)
}

#[test]
fn names_that_differ_in_case_are_one_file(rt: HostRuntime) -> Result<(), Fail> {
    let mut bench = bench(&rt)?;
    assert_eq!(rt; put(&rt, &mut bench, "a.cap", 1)?, Ok(1));
    assert_eq!(rt; put(&rt, &mut bench, "A.Cap", 2)?, Ok(2));
    assert_eq!(rt; only_file(&rt, &mut bench, "A.Cap"), Ok(Some((2, 1))));
    assert_eq!(rt; remove(&rt, &mut bench, 2), Ok(()));
    assert_eq!(rt; only_file(&rt, &mut bench, ""), Ok(None));
    assert_eq!(rt;
        put(&rt, &mut bench, "a.cap", 1)?,
        Ok(3),
        "no serial comes again"
    );
    Ok(())
}

#[test]
fn the_65th_file_is_refused(rt: HostRuntime) -> Result<(), Fail> {
    let mut bench = bench(&rt)?;
    for k in 0..64u8 {
        let name = ["a", "b", "c", "d", "e", "f", "g", "h"];
        let (Some(high), Some(low)) = (name.get(k as usize / 8), name.get(k as usize % 8)) else {
            break;
        };
        let name = format!(in rt.alloc(); "{high}{low}")?;
        assert!(rt; put(&rt, &mut bench, name.as_str(), k)?.is_ok(), "file {k}");
    }
    assert_eq!(rt; put(&rt, &mut bench, "x", 0)?, Err(VolumeFault::Full));
    assert_eq!(rt;
        put(&rt, &mut bench, "HH", 0)?,
        Ok(65),
        "a name that is there"
    );
    Ok(())
}

/// 32 files of 67,108,864 bytes have 2,147,483,648 in sum, which is the limit.
#[test]
fn a_byte_above_the_sum_of_the_folder_is_refused(rt: HostRuntime) -> Result<(), Fail> {
    let mut bench = bench(&rt)?;
    let bytes = vec![in rt.alloc(); 0x77; 67_108_864]?;
    for k in 0..32u8 {
        let names = ["a", "b", "c", "d", "e", "f", "g", "h"];
        let (Some(high), Some(low)) = (names.get(k as usize / 8), names.get(k as usize % 8)) else {
            break;
        };
        let name = format!(in rt.alloc(); "{high}{low}")?;
        let answer = put_bytes(&rt, &mut bench, name.as_str(), bytes.as_slice())?;
        assert_eq!(rt; answer, Ok(u64::from(k) + 1), "file {k}");
    }
    assert_eq!(rt; put(&rt, &mut bench, "x", 0)?, Err(VolumeFault::Full));
    assert_eq!(rt;
        put(&rt, &mut bench, "aa", 0)?,
        Ok(33),
        "one that is there gives room"
    );
    assert_eq!(rt; put(&rt, &mut bench, "x", 0)?, Ok(34));
    Ok(())
}

#[test]
fn a_put_that_is_cut(rt: HostRuntime) -> Result<(), Fail> {
    for (name, choice, there) in [
        ("new", Choice::New, true),
        ("old", Choice::Old, false),
        ("mix", Choice::Mix, true),
        ("fill", Choice::Fill(0), true),
    ] {
        let mut bench = bench(&rt)?;
        arm(&rt, &mut bench, 0, choice);
        assert_eq!(rt;
            put(&rt, &mut bench, "a.cap", 1)?,
            Err(VolumeFault::Failed),
            "{name}"
        );
        assert_eq!(rt;
            only_file(&rt, &mut bench, "a.cap"),
            Err(VolumeFault::Failed),
            "{name}"
        );
        cycle(&rt, &mut bench, false);
        let file = only_file(&rt, &mut bench, "a.cap");
        assert_eq!(rt; file, Ok(there.then_some((1, 1))), "{name}");
    }
    Ok(())
}

#[test]
fn a_remove_that_is_cut(rt: HostRuntime) -> Result<(), Fail> {
    for (name, choice, there) in [
        ("new", Choice::New, false),
        ("old", Choice::Old, true),
        ("mix", Choice::Mix, false),
        ("fill", Choice::Fill(0), false),
    ] {
        let mut bench = bench(&rt)?;
        assert_eq!(rt; put(&rt, &mut bench, "a.cap", 1)?, Ok(1), "{name}");
        arm(&rt, &mut bench, 0, choice);
        assert_eq!(rt; remove(&rt, &mut bench, 1), Err(Failed), "{name}");
        cycle(&rt, &mut bench, true);
        let file = only_file(&rt, &mut bench, "a.cap");
        assert_eq!(rt; file, Ok(there.then_some((1, 1))), "{name}");
    }
    Ok(())
}

#[test]
fn a_fault_of_the_folder_leaves_it_as_it_was(rt: HostRuntime) -> Result<(), Fail> {
    let mut bench = bench(&rt)?;
    fail(&rt, &mut bench, 1);
    assert_eq!(rt; put(&rt, &mut bench, "a.cap", 1)?, Err(VolumeFault::Failed));
    assert_eq!(rt; only_file(&rt, &mut bench, ""), Ok(None));
    assert_eq!(rt; put(&rt, &mut bench, "a.cap", 1)?, Ok(1));
    fail(&rt, &mut bench, 1);
    assert_eq!(rt; remove(&rt, &mut bench, 1), Err(Failed));
    fail(&rt, &mut bench, 1);
    assert_eq!(rt;
        only_file(&rt, &mut bench, "a.cap"),
        Err(VolumeFault::Failed)
    );
    assert_eq!(rt; only_file(&rt, &mut bench, "a.cap"), Ok(Some((1, 1))));
    Ok(())
}

#[test]
fn segments_hide_earlier_ones(rt: HostRuntime) -> Result<(), Fail> {
    let mut memory = Segments::new(rt.alloc());
    let mut out = [0; 4];
    assert_eq!(rt; memory.lay(100, &[1, 2, 3, 4]), Ok(()));
    assert_eq!(rt; memory.lay(102, &[7]), Ok(()));
    assert!(rt; memory.read(100, &mut out));
    assert_eq!(rt; out, [1, 2, 7, 4]);
    assert!(rt; !memory.read(101, &mut out), "the place 104 is not there");
    assert_eq!(rt; out, [1, 2, 7, 4], "nothing was read");
    assert_eq!(rt; memory.lay(104, &[9]), Ok(()));
    assert!(rt; memory.read(101, &mut out), "over the ends of segments");
    assert_eq!(rt; out, [2, 7, 4, 9]);
    Ok(())
}

#[test]
fn the_last_address_is_never_there(rt: HostRuntime) -> Result<(), Fail> {
    let mut memory = Segments::new(rt.alloc());
    assert_eq!(rt; memory.lay(u64::MAX, &[1]), Err(LayFault::Wraps));
    assert_eq!(rt; memory.lay(u64::MAX - 1, &[1, 2]), Err(LayFault::Wraps));
    assert_eq!(rt; memory.lay(u64::MAX - 1, &[1]), Ok(()));
    assert_eq!(rt; memory.lay(u64::MAX, &[]), Ok(()), "a segment of no bytes");
    let mut out = [0; 1];
    assert!(rt; memory.read(u64::MAX - 1, &mut out));
    assert!(rt; !memory.read(u64::MAX, &mut out));
    assert!(rt; memory.read(u64::MAX, &mut []), "no bytes are there");
    Ok(())
}

#[test]
fn the_257th_segment_is_refused(rt: HostRuntime) -> Result<(), Fail> {
    let mut memory = Segments::new(rt.alloc());
    for k in 0..256u64 {
        assert_eq!(rt; memory.lay(k, &[]), Ok(()), "segment {k}");
    }
    assert_eq!(rt; memory.lay(0, &[]), Err(LayFault::Full));
    assert_eq!(rt;
        memory.lay(u64::MAX, &[1]),
        Err(LayFault::Wraps),
        "Wraps comes before Full"
    );
    Ok(())
}

#[test]
fn a_cold_cycle_empties_the_memory(rt: HostRuntime) -> Result<(), Fail> {
    let mut bench = bench(&rt)?;
    assert_eq!(rt; bench.lay(8, &[1]), Ok(()));
    let mut out = [0; 1];
    cycle(&rt, &mut bench, false);
    assert!(rt; PhysMem::read(&bench, 8, &mut out), "a warm cycle keeps it");
    cycle(&rt, &mut bench, true);
    assert!(rt;
        !PhysMem::read(&bench, 8, &mut out),
        "a cold cycle does not"
    );
    Ok(())
}
