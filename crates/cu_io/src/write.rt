ghost use Rattle.std.specs.Prelude.{OnOk};
ghost use Rattle.cu_io.specs.Streams.{AppendsAll, AppendsFront, WriteFails};

use crate::{Sink, SinkFault};
use thiserror::Error;

/// Why not all was written.
#[derive(Clone, Copy, Debug, PartialEq, Eq, Error)]
pub enum WriteFault {
    #[error("a write failed")]
    Write,
    #[error("out of memory")]
    Memory,
}

/// Appends all of the bytes. Write comes only where the sink's count rose. After a refusal a prefix
/// of the bytes was written.
pub fn write_whole<K: Sink>(sink: &mut K, bytes: &[u8]) -> Result<(), WriteFault>
    ensures ok { OnOk result (AppendsAll (K.seen sink.old) (K.seen sink.new) bytes.now) }
    ensures err { AppendsFront (K.seen sink.old) (K.seen sink.new) bytes.now }
    ensures cause { WriteFails WriteFault.Write (K.seen sink.old) (K.seen sink.new) result }
{
    let mut done = 0;
    while done < bytes.len() {
        match sink.write(&bytes[done..]) {
            Ok(n) => done += n,
            Err(SinkFault::Failed) => return Err(WriteFault::Write),
            Err(SinkFault::Memory) => return Err(WriteFault::Memory),
        }
    }
    Ok(())
}
