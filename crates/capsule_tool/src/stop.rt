use crate::answer::Answer;
use cu_base::NoMemory;

/// Why the work of a command goes no further: it is answered early, or memory ran out.
#[derive(Drop)]
pub enum Stop {
    Answered(Answer),
    Memory,
}

impl From<NoMemory> for Stop {
    ghost use Rattle.std.specs.Prelude.{◌≡◌};
    ghost use Rattle.capsule_tool.specs.declared.stop.Stop.TheVariants.{Memory};

    ghost from_gives = { λ _ e. e ≡ Memory };

    fn from(_: NoMemory) -> Stop {
        Stop::Memory
    }
}
