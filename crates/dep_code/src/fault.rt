ghost use Rattle.std.specs.Prelude.{◌≡◌};

use cu_base::NoMemory;
use thiserror::Error;

/// Why bytes are refused as a dependency section.
#[derive(Clone, Copy, Debug, PartialEq, Eq, Error)]
pub enum DepWhy {
    #[error("the bytes end before the operation END")]
    NoEnd,
    #[error("there is no operation of this byte")]
    BadOpcode,
    #[error("the bytes end before the operand does")]
    CutOperand,
    #[error("DECLARE_LENGTH stands behind another operation")]
    LateDeclare,
    #[error("the declared length is not that of the section")]
    WrongDeclare,
    #[error("an operand of the operation is missing or of the other type")]
    BadTypes,
    #[error("the section does not leave exactly one truth value")]
    NotOneBool,
    #[error("the section is longer than 4096 bytes")]
    TooLong,
}

/// The first wrong place of bytes that are no section, counted from their start, and what is wrong
/// there.
#[derive(Clone, Copy, Debug, PartialEq, Eq, Error)]
#[error("refused at {at}: {why}")]
pub struct DepFault {
    pub at: u32,
    pub why: DepWhy,
}

/// Why no section was read.
#[derive(Clone, Copy, Debug, PartialEq, Eq, Error)]
pub enum DepRefusal {
    #[error("{0}")]
    Dep(DepFault),
    #[error("out of memory")]
    Memory,
}

impl DepRefusal {
    /// The refusal at a place.
    pub(crate) fn at(at: u32, why: DepWhy) -> DepRefusal
        ensures { result ≡ DepRefusal.Dep (record { at = at; why = why }) }
    {
        DepRefusal::Dep(DepFault { at, why })
    }
}

impl From<DepFault> for DepRefusal {
    ghost use Rattle.std.specs.Prelude.{◌≡◌};
    ghost use Rattle.dep_code.specs.declared.fault.DepRefusal.TheVariants.{Dep};

    ghost from_gives = { λ f e. e ≡ Dep f };

    fn from(fault: DepFault) -> DepRefusal {
        DepRefusal::Dep(fault)
    }
}

impl From<NoMemory> for DepRefusal {
    ghost use Rattle.std.specs.Prelude.{◌≡◌};
    ghost use Rattle.dep_code.specs.declared.fault.DepRefusal.TheVariants.{Memory};

    ghost from_gives = { λ _ e. e ≡ Memory };

    fn from(_: NoMemory) -> DepRefusal {
        DepRefusal::Memory
    }
}
