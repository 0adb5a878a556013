/// What a power cut leaves of the bytes that were written and not yet synced: the new ones, the old
/// ones, some of both, or one byte everywhere.
#[derive(Clone, Copy, Debug, PartialEq, Eq)]
pub enum Choice {
    New,
    Old,
    Mix,
    Fill(u8),
}
