ghost use Rattle.cu_io.specs.Streams.{SinkSeen, TakesPiece, Writes, WriteFails};

use thiserror::Error;

/// Why a sink took nothing.
#[derive(Clone, Copy, Debug, PartialEq, Eq, Error)]
pub enum SinkFault {
    #[error("the sink failed")]
    Failed,
    #[error("out of memory")]
    Memory,
}

/// Where bytes are written.
pub trait Sink {
    /// What is seen of it: what was written, where it tells that, and how often it has failed.
    ghost seen: { Self → SinkSeen };

    /// Takes a prefix of `bytes`, at least one byte of a nonempty piece, and tells how many. A
    /// refused write writes nothing.
    fn write(&mut self, bytes: &[u8]) -> Result<usize, SinkFault>
        ensures bound { TakesPiece result bytes.now }
        ensures writes { Writes (seen self.old) (seen self.new) result bytes.now }
        ensures cause { WriteFails SinkFault.Failed (seen self.old) (seen self.new) result };
}
