use crate::keys::Key;
use cu_base::{NoMemory, Text};
use thiserror::Error;

/// What is wrong at a key.
#[derive(Clone, Copy, Debug, PartialEq, Eq, Error)]
pub enum BadKind {
    #[error("the text is no TOML document")]
    BadToml,
    #[error("a required key is absent")]
    MissingKey,
    #[error("the value is of another TOML kind")]
    WrongKind,
    #[error("the value is outside its limits")]
    OutOfRange,
    #[error("the text is no GUID")]
    BadGuid,
    #[error("an earlier table has the same name, or the same type, index and instance")]
    Repeated,
    #[error("the bank is too small for the results up to result_max")]
    BankTooSmall,
}

/// Why a file is refused.
#[derive(Debug, Drop, Error)]
pub enum FileFault {
    /// The first fault of the text, and the plain name of its key; `-` for BadToml.
    #[error("{kind}, at {name}", name = .key.as_str())]
    Bad { kind: BadKind, key: Text },
    #[error("out of memory")]
    Memory,
}

/// A fault of a text.
#[derive(Clone, Copy, Debug, PartialEq, Eq)]
pub(crate) struct Fault {
    pub kind: BadKind,
    pub key: Key,
}

/// Why a reading stops.
#[derive(Clone, Copy, Debug, PartialEq, Eq)]
pub(crate) enum Stop {
    Bad(Fault),
    Memory,
}

impl From<Fault> for Stop {
    ghost use Rattle.std.specs.Prelude.{◌≡◌};
    ghost use Rattle.recipe_files.specs.declared.faults.Stop.TheVariants.{Bad};

    ghost from_gives = { λ fault stop. stop ≡ Bad fault };

    fn from(fault: Fault) -> Stop {
        Stop::Bad(fault)
    }
}

impl From<NoMemory> for Stop {
    ghost use Rattle.std.specs.Prelude.{◌≡◌};
    ghost use Rattle.recipe_files.specs.declared.faults.Stop.TheVariants.{Memory};

    ghost from_gives = { λ _ stop. stop ≡ Memory };

    fn from(_none: NoMemory) -> Stop {
        Stop::Memory
    }
}

/// Why no capsule was made of a recipe.
#[derive(Clone, Copy, Debug, PartialEq, Eq, Error)]
pub enum BuildFault {
    #[error("the capsule would have more than 67108864 bytes")]
    TooLarge,
    #[error("out of memory")]
    Memory,
}

impl From<NoMemory> for BuildFault {
    ghost use Rattle.std.specs.Prelude.{◌≡◌};
    ghost use Rattle.recipe_files.specs.declared.faults.BuildFault.TheVariants.{Memory};

    ghost from_gives = { λ _ fault. fault ≡ Memory };

    fn from(_none: NoMemory) -> BuildFault {
        BuildFault::Memory
    }
}
