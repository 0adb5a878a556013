//! The bits of ImageCapsuleSupport.

ghost use Rattle.std.specs.Prelude.{◌≡◌};
ghost use Rattle.image_parts.specs.Support.{has_authentication, has_section};

/// Whether authentication data is due.
pub fn has_authentication(support: u64) -> bool
    ensures { result ≡ has_authentication support }
{
    support % 2 == 1
}

/// Whether a dependency section is due.
pub fn has_section(support: u64) -> bool
    ensures { result ≡ has_section support }
{
    support / 2 % 2 == 1
}
