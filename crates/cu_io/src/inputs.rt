ghost use Rattle.std.specs.Prelude.{◌≡◌, IfOk, IsErrOf};
ghost use Rattle.cu_io.specs.Named.{IsMissing};
ghost use Rattle.cu_io.specs.Seen.{Seen, Follows, Asks, IsOpened, HasOpenCause, TakesBack};

use crate::Source;
use cu_base::Text;
use std::alloc::Global;
use thiserror::Error;

/// Why no source was opened.
#[derive(Clone, Copy, Debug, PartialEq, Eq, Error)]
pub enum OpenFault {
    #[error("there is no input of this name")]
    Missing,
    #[error("the input could not be opened")]
    Failed,
    #[error("out of memory")]
    Memory,
}

/// What inputs are found in, by name.
pub trait Inputs {
    type Src: Source;

    /// What is seen of them: names, what was asked for, and the counts of faults and of bytes.
    ghost seen: { Self → Seen };

    /// Opens the input of this name. It is Missing exactly where names are told and this one is not
    /// among them, and Failed only where the count of faults rose. The name is kept as asked for at
    /// every answer but Memory.
    fn open(&mut self, alloc: Global, name: &Text) -> Result<Self::Src, OpenFault>
        ensures ok { IfOk result (λ src. IsOpened (seen self.old) name.now (Self.Src.seen src)) }
        ensures refused { IsErrOf result OpenFault.Missing
            → IsMissing (seen self.old).named name.now }
        ensures counts { Asks name.now (seen self.old) (seen self.new) result }
        ensures frame { Follows (seen self.old) (seen self.new) }
        ensures cause { HasOpenCause (seen self.old) (seen self.new) result };

    /// Takes a source back: its faults and the bytes that it gave are added to the counts.
    fn fold(&mut self, src: Self::Src)
        ensures counts { TakesBack (Self.Src.seen src) (seen self.old) (seen self.new) }
        ensures frame { Follows (seen self.old) (seen self.new) };
}
