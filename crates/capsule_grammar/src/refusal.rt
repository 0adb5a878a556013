use thiserror::Error;

/// Why bytes are refused as a capsule.
#[derive(Clone, Copy, Debug, PartialEq, Eq, Error)]
pub enum Why {
    #[error("the bytes end before the structure that begins there does")]
    Short,
    #[error("HeaderSize is below 28 or above CapsuleImageSize")]
    BadHeaderSize,
    #[error("CapsuleImageSize is above 67108864 or above the bytes that are there")]
    BadImageSize,
    #[error("the version of the FMP capsule header is not 1")]
    BadFmpVersion,
    #[error("the version of the image header is not 1, 2 or 3")]
    BadImageVersion,
    #[error("an item begins within the item offset list or behind the end of the capsule")]
    OffsetsOutside,
    #[error("an item does not begin behind the item before it")]
    OffsetsNotRising,
    #[error("image header, image and vendor code pass the end of their item")]
    ImageOutside,
    #[error("more than eight capsules stand back to back")]
    TooManyCapsules,
}

/// The first wrong place of bytes that are no capsule, counted from their start, and what is wrong
/// there.
#[derive(Clone, Copy, Debug, PartialEq, Eq, Error)]
#[error("refused at {at}: {why}")]
pub struct Refusal {
    pub at: u32,
    pub why: Why,
}
