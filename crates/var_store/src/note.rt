/// What a variable holds.
#[derive(Clone, Copy, Debug, PartialEq, Eq)]
pub struct Value<'a> {
    pub attributes: u32,
    pub bytes: &'a [u8],
}

/// What a call that opens a store tells of it.
#[derive(Clone, Copy, Debug, PartialEq, Eq)]
pub struct Note {
    /// The sequence number at opening, None where the store was not opened.
    pub opened: Option<u64>,
    /// The number of the batch in doubt when the call ended.
    pub pending: Option<u64>,
}
