/// What a walk over a scatter list told of it.
#[derive(Clone, Copy, Debug, PartialEq, Eq)]
pub struct Shape {
    /// The address of the first descriptor.
    pub root: u64,
    /// All descriptors, the end mark and continuations among them.
    pub descriptors: u32,
    /// The bytes of all data blocks.
    pub total: u128,
}
