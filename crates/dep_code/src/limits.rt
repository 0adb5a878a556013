/// The most bytes of a dependency section.
pub const MAX_SECTION_BYTES: u32 = 4096;
