ghost use Rattle.std.specs.Prelude.{◌≡◌};
ghost use Rattle.capsule_tool.specs.Statuses.{code_of};

/// How a run ends.
#[derive(Clone, Copy, Debug, PartialEq, Eq)]
pub enum Status {
    /// The work was done to its end.
    Done,
    /// The bytes of a capsule are refused.
    Refused,
    /// The words have none of the forms.
    Usage,
    /// A board or a script is refused.
    Faulty,
    /// An input could not be read, or is not there.
    Unread,
    /// A write failed.
    Unwritten,
    /// Memory ran out.
    Memory,
    /// An input, or a sum of inputs, passes its limit.
    Long,
    /// The words or an input have a form that is not built yet.
    Later,
}

impl Status {
    /// The status that the process ends with.
    pub fn code(self) -> u8
        ensures { result ≡ code_of self }
    {
        match self {
            Status::Done => 0,
            Status::Refused => 1,
            Status::Usage => 2,
            Status::Faulty => 3,
            Status::Unread => 4,
            Status::Unwritten => 5,
            Status::Memory => 6,
            Status::Long => 7,
            Status::Later => 8,
        }
    }
}
