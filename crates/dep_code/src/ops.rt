ghost use Rattle.std.specs.Prelude.{◌≡◌};

use crate::Op;
use cu_base::Items;
use std::marker::Model;

/// The operations of a section with their places. It is made by `read_ops` alone, so it always is a
/// section.
#[derive(Drop)]
pub struct Ops {
    list: Items<(u32, Op)>,
}

impl Model for Ops {
    ghost use Rattle.std.specs.Prelude.{ℕ, List};
    ghost use Rattle.dep_code.specs.declared.op.Op.{Op};
    ghost use Rattle.dep_code.specs.Sections.{ArePlaced};

    ghost Value = { List (ℕ × Op) };

    ghost view = { λ a. a.list.items };

    ghost invariant = { λ a. ArePlaced a.list.items };
}

impl Ops {
    ghost use Rattle.dep_code.specs.Sections.{ArePlaced};

    /// The operations as a slice of pairs of place and operation.
    pub fn as_slice(&self) -> &[(u32, Op)]
        ensures value { result.now ≡ self.now }
        ensures rule { ArePlaced self.now }
    {
        self.list.as_slice()
    }

    /// The list of a section.
    pub(crate) fn of(list: Items<(u32, Op)>) -> Ops
        requires { ArePlaced list.items }
        ensures { result ≡ list.items }
    {
        Ops { list }
    }
}
