use thiserror::Error;

/// Why a header is refused.
#[derive(Clone, Copy, Debug, PartialEq, Eq, Error)]
pub enum HeaderFault {
    #[error("the bytes end before the header does")]
    Short,
    #[error("HeaderSize is below 28 or above CapsuleImageSize")]
    BadHeaderSize,
    #[error("CapsuleImageSize is above the limit of 67108864 bytes")]
    BadImageSize,
    #[error("the version of the FMP capsule header is not 1")]
    BadFmpVersion,
    #[error("the version of the image header is not 1, 2 or 3")]
    BadImageVersion,
}
