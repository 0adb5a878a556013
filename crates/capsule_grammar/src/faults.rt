use crate::Refusal;
use cu_base::NoMemory;
use thiserror::Error;

/// Why no capsule was read.
#[derive(Clone, Copy, Debug, PartialEq, Eq, Error)]
pub enum DecodeFault {
    #[error("{0}")]
    Refused(Refusal),
    #[error("out of memory")]
    Memory,
}

/// Why a capsule was not written.
#[derive(Clone, Copy, Debug, PartialEq, Eq, Error)]
pub enum EncodeFault {
    #[error("the capsule has more than 67108864 bytes")]
    TooLarge,
    #[error("out of memory")]
    Memory,
}

impl From<Refusal> for DecodeFault {
    ghost use Rattle.std.specs.Prelude.{◌≡◌};
    ghost use Rattle.capsule_grammar.specs.declared.faults.DecodeFault.TheVariants.{Refused};

    ghost from_gives = { λ r e. e ≡ Refused r };

    fn from(refusal: Refusal) -> DecodeFault {
        DecodeFault::Refused(refusal)
    }
}

impl From<NoMemory> for DecodeFault {
    ghost use Rattle.std.specs.Prelude.{◌≡◌};
    ghost use Rattle.capsule_grammar.specs.declared.faults.DecodeFault.TheVariants.{Memory};

    ghost from_gives = { λ _ e. e ≡ Memory };

    fn from(_: NoMemory) -> DecodeFault {
        DecodeFault::Memory
    }
}

impl From<NoMemory> for EncodeFault {
    ghost use Rattle.std.specs.Prelude.{◌≡◌};
    ghost use Rattle.capsule_grammar.specs.declared.faults.EncodeFault.TheVariants.{Memory};

    ghost from_gives = { λ _ e. e ≡ Memory };

    fn from(_: NoMemory) -> EncodeFault {
        EncodeFault::Memory
    }
}
