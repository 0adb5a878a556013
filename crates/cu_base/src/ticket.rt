/// What names one payload item: the route of its delivery (0 is memory, 1 is disk), the delivery's
/// serial, and the numbers of its capsule and of its item, each counted from 0.
#[derive(Clone, Copy, Debug, PartialEq, Eq)]
pub struct Ticket {
    pub route: u8,
    pub capsule: u8,
    pub item: u8,
    pub serial: u64,
}
