use crate::PayloadHead;

/// Where the parts of an update image stand, in bytes from its start. A part that is not there has
/// length 0.
#[derive(Clone, Copy, Debug, PartialEq, Eq)]
pub struct PartSpans {
    /// The length of the authentication data, which stands at the start.
    pub auth: u32,
    /// The place of the dependency section. Without one it is the end of the authentication data.
    pub dep_at: u32,
    /// The length of the dependency section.
    pub dep_length: u32,
    /// The payload header.
    pub head: PayloadHead,
    /// The place of the payload.
    pub payload_at: u32,
    /// The length of the payload.
    pub payload_length: u32,
}
