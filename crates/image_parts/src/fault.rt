ghost use Rattle.std.specs.Prelude.{◌≡◌};

use dep_code::DepWhy;
use thiserror::Error;

/// Why bytes are refused as an update image.
#[derive(Clone, Copy, Debug, PartialEq, Eq, Error)]
pub enum PartWhy {
    #[error("the image ends before the fields of its authentication data do")]
    ShortAuth,
    #[error("wRevision of the certificate is not 0x0200")]
    BadRevision,
    #[error("wCertificateType of the certificate is not 0x0EF1")]
    BadCertType,
    #[error("dwLength of the certificate is below 24 or passes the end of the image")]
    BadAuthLength,
    #[error("dependency section: {0}")]
    Dep(DepWhy),
    #[error("the image ends before the fields of its payload header do")]
    ShortPayloadHeader,
    #[error("the signature of the payload header is not MSS1")]
    BadSignature,
    #[error("HeaderSize of the payload header is below 16 or passes the end of the image")]
    BadPayloadHeaderSize,
}

/// The first wrong place of an image, counted from its start, and what is wrong there.
#[derive(Clone, Copy, Debug, PartialEq, Eq, Error)]
#[error("refused at {at}: {why}")]
pub struct PartFault {
    pub at: u32,
    pub why: PartWhy,
}

impl PartFault {
    /// The fault of this cause at this place.
    pub(crate) fn new(at: u32, why: PartWhy) -> PartFault
        ensures { result ≡ record { at = at; why = why } }
    {
        PartFault { at, why }
    }
}

/// Why an image was not split.
#[derive(Clone, Copy, Debug, PartialEq, Eq, Error)]
pub enum PartRefusal {
    #[error("{0}")]
    Part(PartFault),
    #[error("out of memory")]
    Memory,
}

impl From<PartFault> for PartRefusal {
    ghost use Rattle.std.specs.Prelude.{◌≡◌};
    ghost use Rattle.image_parts.specs.declared.fault.PartRefusal.TheVariants.{Part};

    ghost from_gives = { λ f e. e ≡ Part f };

    fn from(fault: PartFault) -> PartRefusal {
        PartRefusal::Part(fault)
    }
}
