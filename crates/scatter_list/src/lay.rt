//! Scatter lists that are laid into memory.

ghost use Rattle.std.specs.Prelude.{◌≡◌, ◌⊎◌, ◌+◌, ◌*◌, ◌%◌, ◌^◌, ◌<◌, ◌≤◌, ◌++◌, length, IfOk};
ghost use Rattle.std.specs.Prelude.{OnOk, OnErr};
ghost use Rattle.bench_model.specs.Memory.{with_segment};
ghost use Rattle.cu_base.specs.Refusals.{AnswersBy};
ghost use Rattle.scatter_list.specs.Laid.{AreApart, GivesBack, descriptor, laid_count, laid_list};
ghost use Rattle.scatter_list.specs.Laid.{list_refusal, told_lay, with_list};

use crate::MAX_DESCRIPTORS;
use bench_model::{LayFault, Segments};
use cu_base::{Blob, NoMemory, put_u64};
use std::alloc::Global;

/// Lays the bytes at `base` as one segment, and then at `root`, as one segment, the scatter list
/// for them: descriptors of data blocks of `block` bytes, the last one shorter, and the end mark
/// (UEFI 2.10, 8.5.3). It answers Wraps and Full as the first of the two segments does that is not
/// laid. After a refusal the bytes may have been laid, and nothing else.
pub fn lay_list(
    alloc: Global,
    memory: &mut Segments,
    root: u64,
    base: u64,
    bytes: &[u8],
    block: u32,
) -> Result<(), LayFault>
    requires some { 0 < block }
    requires aligned { root % 8 ≡ 0 }
    requires apart { AreApart root base (length bytes.now) block }
    ensures ok { OnOk result (memory.new ≡ with_list memory.old root base bytes.now block) }
    ensures walked { OnOk result (laid_count (length bytes.now) block ≤ MAX_DESCRIPTORS
        → GivesBack memory.new root bytes.now (laid_count (length bytes.now) block)) }
    ensures err { OnErr result ((memory.new ≡ memory.old)
        ⊎ (memory.new ≡ with_segment memory.old base bytes.now)) }
    ensures refused { AnswersBy told_lay result
        (list_refusal memory.old root base bytes.now block) }
{
    memory.lay(base, bytes)?;
    let Ok(list) = list_bytes(alloc, base, bytes.len() as u64, block) else {
        return Err(LayFault::Memory);
    };
    memory.lay(root, list.as_slice())
}

/// The list for so many bytes at `base`.
fn list_bytes(alloc: Global, base: u64, size: u64, block: u32) -> Result<Blob, NoMemory>
    requires some { 0 < block }
    requires fits { base + size < 2 ^ 64 }
    ensures value { IfOk result (λ list. list ≡ laid_list base size block) }
{
    let block = block as u64;
    let mut list = Blob::new(alloc);
    for index in 0..size.div_ceil(block) {
        let start = index * block;
        put_descriptor(&mut list, block.min(size - start), base + start)?;
    }
    put_descriptor(&mut list, 0, 0)?;
    Ok(list)
}

/// Appends a descriptor of this Length and DataBlock or ContinuationPointer.
fn put_descriptor(list: &mut Blob, size: u64, pointer: u64) -> Result<(), NoMemory>
    ensures ok { OnOk result (list.new ≡ list.old ++ descriptor size pointer) }
{
    put_u64(list, size)?;
    put_u64(list, pointer)
}
