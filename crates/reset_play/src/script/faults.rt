ghost use Rattle.std.specs.Prelude.{◌≡◌};
ghost use Rattle.reset_play.specs.declared.script.faults.LineFault.TheVariants as line;
ghost use Rattle.reset_play.specs.declared.script.faults.ScriptFault.TheVariants as script;

use cu_base::NoMemory;
use thiserror::Error;

/// Why a line of a script is refused.
#[derive(Clone, Copy, Debug, PartialEq, Eq, Error)]
pub enum ScriptKind {
    #[error("a byte that is no printable ASCII character")]
    BadText,
    #[error("the first word is no event")]
    BadEvent,
    #[error("the operands are too many, too few or out of form")]
    BadOperand,
    #[error("more than 4096 events")]
    TooMany,
}

/// Why a script is refused: its first line that is, counted from 1, and why that line is. Or memory
/// ran out.
#[derive(Clone, Copy, Debug, PartialEq, Eq, Error)]
pub enum ScriptFault {
    #[error("line {line}: {kind}")]
    Bad { line: u32, kind: ScriptKind },
    #[error("out of memory")]
    Memory,
}

// Why one line is not read.
#[derive(Clone, Copy)]
pub(crate) enum LineFault {
    Refused(ScriptKind),
    Memory,
}

impl From<NoMemory> for LineFault {
    ghost from_gives = { λ _ fault. fault ≡ line.Memory };

    fn from(_none: NoMemory) -> LineFault {
        LineFault::Memory
    }
}

impl From<NoMemory> for ScriptFault {
    ghost from_gives = { λ _ fault. fault ≡ script.Memory };

    fn from(_none: NoMemory) -> ScriptFault {
        ScriptFault::Memory
    }
}
