ghost use Rattle.std.specs.Prelude.{◌≡◌, ◌+◌, ◌-◌, ◌^◌, ◌<◌, ◌≤◌, length, All, None};
ghost use Rattle.std.specs.Bool.{OnTrue, OnFalse};
ghost use Rattle.bench_model.specs.Memory.{byte_of, byte_at, EndsBelow, IsThere, IsThereTo};
ghost use Rattle.bench_model.specs.Memory.{IsLacking, Overlays};

use cu_base::Blob;

/// Bytes of memory from an address on.
#[derive(Drop)]
pub struct Segment {
    pub address: u64,
    pub bytes: Blob,
}

impl Segment {
    /// The byte at an address, where the segment has one there.
    pub fn byte(&self, address: u64) -> Option<u8>
        ensures value { result ≡ byte_of address self.now }
    {
        let bytes = self.bytes.as_slice();
        if self.address <= address && address - self.address < bytes.len() as u64 {
            return Some(bytes[(address - self.address) as usize]);
        }
        None
    }

    /// Copies the bytes of the segment that stand in a range of memory over what was read of it.
    fn copy_over(&self, at: u64, out: &mut [u8])
        requires below { EndsBelow self.now }
        requires end { at + length out.old ≤ 2 ^ 64 - 1 }
        ensures size { length out.new ≡ length out.old }
        ensures value { Overlays self.now at out.old out.new }
    {
        let bytes = self.bytes.as_slice();
        let start = at.max(self.address);
        let end = (at + out.len() as u64).min(self.address + bytes.len() as u64);
        if start < end {
            let from = (start - self.address) as usize;
            let to = (start - at) as usize;
            let count = (end - start) as usize;
            out[to..to + count].copy_from_slice(&bytes[from..from + count]);
        }
    }
}

/// Where the bytes that stand from an address on in one segment end, or the address where none has
/// a byte there.
fn end_from(segments: &[Segment], at: u64) -> u64
    requires each { All EndsBelow segments.now }
    ensures bound { at ≤ result }
    ensures there { IsThereTo segments.now at result }
    ensures lacking { result ≡ at → byte_at segments.now at ≡ None }
{
    let mut end = at;
    for segment in segments {
        let behind = segment.address + segment.bytes.len() as u64;
        if segment.address <= at && behind > end {
            end = behind;
        }
    }
    end
}

/// Whether the bytes between two addresses are all there.
pub(crate) fn are_there(segments: &[Segment], at: u64, end: u64) -> bool
    requires each { All EndsBelow segments.now }
    requires order { at ≤ end }
    ensures there { OnTrue result (IsThereTo segments.now at end) }
    ensures lacking { OnFalse result (IsLacking segments.now at (end - at)) }
{
    let mut to = at;
    while to < end {
        let next = end_from(segments, to);
        if next == to {
            return false;
        }
        to = next;
    }
    true
}

/// Reads bytes that are all there: each segment, in the order in which they were laid, over what
/// the earlier ones gave.
pub(crate) fn copy_out(segments: &[Segment], at: u64, out: &mut [u8])
    requires each { All EndsBelow segments.now }
    requires end { at + length out.old ≤ 2 ^ 64 - 1 }
    requires there { IsThereTo segments.now at (at + length out.old) }
    ensures { IsThere segments.now at out.new }
{
    for layer in segments {
        layer.copy_over(at, out);
    }
}
