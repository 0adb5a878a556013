use cu_base::NoMemory;
use thiserror::Error;

/// Why the bytes of a table or of a result are refused.
#[derive(Clone, Copy, Debug, PartialEq, Eq, Error)]
pub enum ReportFault {
    #[error("the bytes end before the fields do")]
    Short,
    #[error("FwResourceCount is not FwResourceCountMax")]
    BadCount,
    #[error("the version is not 1")]
    BadVersion,
    #[error("the length is not the one that the fields tell")]
    BadSize,
    #[error("a text has no zero at its end")]
    NoTerminator,
    #[error("a text has a character above 0x7F")]
    NotAscii,
    #[error("out of memory")]
    Memory,
}

impl From<NoMemory> for ReportFault {
    ghost use Rattle.std.specs.Prelude.{◌≡◌};
    ghost use Rattle.report_tables.specs.declared.faults.ReportFault.TheVariants.{Memory};

    ghost from_gives = { λ _ e. e ≡ Memory };

    fn from(_: NoMemory) -> ReportFault {
        ReportFault::Memory
    }
}
