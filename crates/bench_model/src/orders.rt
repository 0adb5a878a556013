use crate::Choice;

/// What a bench was told beside its platform's calls.
#[derive(Clone, Copy, Debug, PartialEq, Eq)]
pub enum Order {
    /// A board was laid out.
    LayOut,
    /// Power is to be cut at the step after the next `after` ones.
    Arm { after: u32, choice: Choice },
    /// The `nth` call from then on is to fail.
    Fail { nth: u32 },
    /// The platform was reset.
    Cycle { cold: bool },
}

/// An order, with the counts of faults as they stood.
#[derive(Clone, Copy, Debug, PartialEq, Eq)]
pub struct Ordered {
    pub order: Order,
    pub flash_faults: u64,
    pub volume_faults: u64,
}
