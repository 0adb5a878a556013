//! What is not built yet.

ghost use Rattle.std.specs.Prelude.{IsErr};

use cu_base::NoMemory;

/// Gives up, as for want of memory, in place of a body that is not built yet.
pub(crate) fn to_be_built<T>() -> Result<T, NoMemory>
    ensures { IsErr result }
{
    Err(NoMemory)
}
