ghost use Rattle.std.specs.Prelude.{◌≡◌, List, length};
ghost use Rattle.std.specs.Bool.{OnTrue, OnFalse};
ghost use Rattle.bench_model.specs.declared.segment.Segment.{Segment};
ghost use Rattle.bench_model.specs.Memory.{IsThere, IsLacking};

/// Physical memory. It has no faults.
pub trait PhysMem {
    /// The segments that were laid, of which a later one hides earlier ones.
    ghost segments: { Self → List Segment };

    /// Reads the bytes from an address on. It is false exactly where one of them is not there; then
    /// `out` is unchanged. The address 2^64 - 1 is never there.
    fn read(&self, at: u64, out: &mut [u8]) -> bool
        ensures reads { OnTrue result (IsThere (segments self.now) at out.new) }
        ensures refused { OnFalse result (IsLacking (segments self.now) at (length out.new)) }
        ensures err { OnFalse result (out.new ≡ out.old) };
}
