//! The statuses with which the program ends.
ghost use Rattle.std.specs.Prelude.{◌≡◌};
ghost use Rattle.flow_load.specs.Statuses.{code_of};

/// How a call ended. The table is this project's own.
#[derive(Clone, Copy, Debug, PartialEq, Eq)]
pub enum Status {
    /// The network finished and nothing is left; or a check found nothing against its file, a judge answered, or a page was printed.
    Finished,
    /// The network finished, and packets are left.
    FinishedLeft,
    /// The words are no command line.
    Words,
    /// The network file is refused.
    Refused,
    Deadlock,
    /// A process failed, and no process can go on.
    Failed,
    ReadFault,
    WriteFault,
    NoMemory,
    /// A file that is read is longer than its limit.
    TooLong,
    /// A journal's file is refused, or its journal is no schedule of the network.
    JournalRefused,
    /// A replay came to the end of its journal, and some process can go on.
    Running,
    /// A file of tapes is refused, or there aren't as many tapes as processes for them.
    TapesRefused,
}

impl Status {
    /// The number that the program gives to its caller.
    pub fn code(self) -> u8
        ensures { result ≡ code_of self }
    {
        match self {
            Status::Finished => 0,
            Status::FinishedLeft => 1,
            Status::Words => 2,
            Status::Refused => 3,
            Status::Deadlock => 4,
            Status::Failed => 5,
            Status::ReadFault => 6,
            Status::WriteFault => 7,
            Status::NoMemory => 8,
            Status::TooLong => 9,
            Status::JournalRefused => 10,
            Status::Running => 11,
            Status::TapesRefused => 12,
        }
    }
}
