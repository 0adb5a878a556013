//! What is not built yet.

ghost use Rattle.std.specs.Prelude.{◌≡◌, Err};
ghost use Rattle.cap_boot.specs.declared.fault.BootFault.TheVariants as boot;

use crate::BootFault;

/// Gives up, as for want of memory, in place of a body that is not built yet.
pub(crate) fn to_be_built<T>() -> Result<T, BootFault>
    ensures { result ≡ Err boot.Memory }
{
    Err(BootFault::Memory)
}
