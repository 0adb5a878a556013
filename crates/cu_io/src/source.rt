ghost use Rattle.std.specs.Io.{ReadsAtMost};
ghost use Rattle.cu_base.specs.Causes.{HasCause};
ghost use Rattle.cu_io.specs.Streams.{SourceSeen, Gives};

use cu_base::Failed;

/// What bytes are read from.
pub trait Source {
    /// What is seen of it: the bytes that are left, where it tells them, and its counts.
    ghost seen: { Self → SourceSeen };

    /// Takes at most `out.len()` bytes from what is left, at least one where something is left and
    /// `out` is not empty. So 0 on a nonempty `out` is the end. A failed read takes nothing.
    fn read(&mut self, out: &mut [u8]) -> Result<usize, Failed>
        ensures bound { ReadsAtMost result out.new }
        ensures reads { Gives (seen self.old) (seen self.new) result out.new }
        ensures cause { HasCause (seen self.old).faults (seen self.new).faults result };

    /// About how many bytes are left, so that room for them can be made once. It promises nothing.
    fn expected_len(&self) -> u64 {
        0
    }
}
