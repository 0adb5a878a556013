use cu_base::Guid;

/// The parts of an update image.
#[derive(Clone, Copy, Debug, PartialEq, Eq)]
pub struct Parts<'a> {
    /// The authentication data, where bit 0 of the support is set.
    pub auth: Option<AuthParts<'a>>,
    /// The dependency section, where bit 1 of the support is set.
    pub dep: Option<&'a [u8]>,
    /// The payload header.
    pub head: PayloadHead,
    /// The bytes of the payload header behind its fields.
    pub extra: &'a [u8],
    /// What stands behind the payload header.
    pub payload: &'a [u8],
}

/// Authentication data, EFI_FIRMWARE_IMAGE_AUTHENTICATION (UEFI 2.10, 23.1).
#[derive(Clone, Copy, Debug, PartialEq, Eq)]
pub struct AuthParts<'a> {
    /// MonotonicCount.
    pub monotonic: u64,
    /// CertType.
    pub cert_type: Guid,
    /// CertData.
    pub cert: &'a [u8],
}

/// The fields of a payload header behind its signature (EDK II, FmpPayloadHeaderLibV1).
#[derive(Clone, Copy, Debug, PartialEq, Eq)]
pub struct PayloadHead {
    /// HeaderSize.
    pub header_size: u32,
    /// FwVersion.
    pub version: u32,
    /// LowestSupportedVersion.
    pub lowest: u32,
}
