//! Scatter lists: one of many descriptors, and one of a large block.

ghost use Rattle.std.specs.Prelude.{◌≡◌, Some, Ok, IfOk};
ghost use Rattle.scatter_list.specs.Walk.{walk};

use crate::stop::Stop;
use bench_model::Segments;
use cu_base::{Blob, CountLedger, Steps, put_u64};
use scatter_list::{Shape, coalesce, lay_list, shape};
use std::alloc::Global;

/// Where a list begins.
const ROOT: u64 = 0x1000_0000;

/// How many segments the descriptors lie in, and how many lie in each.
const SEGMENTS: u32 = 256;

/// The bytes of the large block.
const SIZE: usize = 67_108_864;

/// Walks a list of 65,536 descriptors in 256 segments.
pub fn measure_walk(alloc: Global) -> Result<(), Stop> {
    let mut memory = Segments::new(alloc);
    for index in 0..SEGMENTS {
        let mut bytes = Blob::new(alloc);
        for part in 0..SEGMENTS {
            let last = index == SEGMENTS - 1 && part == SEGMENTS - 1;
            put_u64(&mut bytes, if last { 0 } else { 1 })?;
            put_u64(&mut bytes, if last { 0 } else { ROOT })?;
        }
        memory.lay(ROOT + 4_096 * u64::from(index), bytes.as_slice())?;
    }
    let list = walked(&memory)?;
    if list.descriptors != 65_536 {
        return Err(Stop::Failed);
    }
    Ok(())
}

/// Lays 64 MiB and the list of one block for them.
pub fn measure_list(alloc: Global) -> Result<(), Stop> {
    let _memory = large_list(alloc)?;
    Ok(())
}

/// Lays the same, and joins it.
pub fn measure_join(alloc: Global) -> Result<(), Stop> {
    let memory = large_list(alloc)?;
    let list = walked(&memory)?;
    let joined = coalesce(alloc, &memory, &list, SIZE as u32)?;
    if joined.len() != SIZE {
        return Err(Stop::Failed);
    }
    Ok(())
}

/// Memory with 64 MiB and the list of one block for them.
fn large_list(alloc: Global) -> Result<Segments, Stop> {
    let Ok(bytes) = vec![in alloc; 0x77; SIZE] else {
        return Err(Stop::Memory);
    };
    let mut memory = Segments::new(alloc);
    lay_list(
        alloc,
        &mut memory,
        ROOT,
        2 * ROOT,
        bytes.as_slice(),
        SIZE as u32,
    )?;
    Ok(memory)
}

/// The shape of the list.
fn walked(memory: &Segments) -> Result<Shape, Stop>
    ensures rule { IfOk result (λ list. walk memory.now list.root ≡ Some (Ok list)) }
{
    match shape(memory, ROOT, &mut Steps::new(CountLedger { count: 0 })) {
        Ok(list) => Ok(list),
        Err(_) => Err(Stop::Failed),
    }
}
