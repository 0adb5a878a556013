use cu_base::Ticket;

/// What a sealed slot says of itself: the ticket of the update, version and lowest version that it
/// supports, and the bytes of its payload and of its dependency section.
#[derive(Clone, Copy, Debug, PartialEq, Eq)]
pub struct SlotHead {
    pub ticket: Ticket,
    pub version: u32,
    pub floor: u32,
    pub length: u32,
    pub dep_length: u32,
}

/// What a slot is.
#[derive(Clone, Copy, Debug, PartialEq, Eq)]
pub enum Slot {
    Sealed(SlotHead),
    Unsealed,
}
