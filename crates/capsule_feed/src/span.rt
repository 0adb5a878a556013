use cu_base::Items;

/// What a structure of a capsule is (UEFI 2.10, 8.5.3 and 23.3.2). `Other` is the body of a capsule
/// that is no FMP capsule, `Lead` stands between the offset list and the first item, and `Pad`
/// between vendor code and the next item.
#[derive(Clone, Copy, Debug, PartialEq, Eq)]
pub enum SpanKind {
    Header,
    Ext,
    Other,
    FmpHead,
    Offsets,
    Lead,
    Driver,
    ImageHead,
    Image,
    Vendor,
    Pad,
}

/// Bytes of one structure: the number of its capsule and of its item, both from 0 and drivers first,
/// the place in the delivery, and how many bytes. `item` is 0 where the kind belongs to no item.
#[derive(Clone, Copy, Debug, PartialEq, Eq)]
pub struct Span {
    pub kind: SpanKind,
    pub capsule: u8,
    pub item: u32,
    pub at: u32,
    pub length: u32,
}

/// A list of spans.
pub type Events = Items<Span>;
