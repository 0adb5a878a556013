//! The limits as numbers: definitions cite the constants, and this law says what they are.

ghost use Rattle.std.specs.Prelude.{◌≡◌};

use crate::limits::{MAX_KEPT_SECTION, PIECE};

/// The limits of a slot.
pub fn limits_of_a_slot()
    ensures section { MAX_KEPT_SECTION ≡ 4096 }
    ensures piece { PIECE ≡ 65536 }
{}
