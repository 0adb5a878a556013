use capsule_grammar::Refusal;
use cu_base::NoMemory;
use cu_io::StreamFault;

/// Why a scan went no further.
#[derive(Clone, Copy, Debug, PartialEq, Eq)]
pub enum ScanStop {
    /// What was read is refused.
    Refused(Refusal),
    /// The input ends within the capsule.
    Ended,
    /// A read failed.
    Failed,
    /// Memory ran out.
    Memory,
}

impl From<Refusal> for ScanStop {
    ghost use Rattle.std.specs.Prelude.{◌≡◌};
    ghost use Rattle.capsule_tool.specs.declared.scan.stop.ScanStop.TheVariants.{Refused};

    ghost from_gives = { λ r e. e ≡ Refused r };

    fn from(refusal: Refusal) -> ScanStop {
        ScanStop::Refused(refusal)
    }
}

impl From<StreamFault> for ScanStop {
    ghost use Rattle.std.specs.Prelude.{◌≡◌};
    ghost use Rattle.capsule_tool.specs.ScanStops.{stop_of};

    ghost from_gives = { λ fault e. e ≡ stop_of fault };

    fn from(fault: StreamFault) -> ScanStop {
        match fault {
            StreamFault::Ended => ScanStop::Ended,
            StreamFault::Failed => ScanStop::Failed,
        }
    }
}

impl From<NoMemory> for ScanStop {
    ghost use Rattle.std.specs.Prelude.{◌≡◌};
    ghost use Rattle.capsule_tool.specs.declared.scan.stop.ScanStop.TheVariants.{Memory};

    ghost from_gives = { λ _ e. e ≡ Memory };

    fn from(_: NoMemory) -> ScanStop {
        ScanStop::Memory
    }
}
