//! The statuses that a command ends with.
ghost use Rattle.std.specs.Prelude.{◌≡◌};
ghost use Rattle.m2c_top.specs.Statuses.{status_number};

/// How a command ended.
#[derive(Clone, Copy)]
pub enum Status {
    Done,
    Diagnosed,
    NoCommand,
    NoText,
    NoObject,
    ReadFault,
    WriteFault,
    NoMemory,
    OverLimit,
    BadObjects,
    Trapped,
    StepsSpent,
}

impl Status {
    /// The number that the program ends with.
    pub fn number(self) -> u8
        ensures { result ≡ status_number self }
    {
        match self {
            Status::Done => 0,
            Status::Diagnosed => 1,
            Status::NoCommand => 2,
            Status::NoText => 3,
            Status::NoObject => 3,
            Status::ReadFault => 4,
            Status::WriteFault => 5,
            Status::NoMemory => 6,
            Status::OverLimit => 7,
            Status::BadObjects => 8,
            Status::Trapped => 9,
            Status::StepsSpent => 10,
        }
    }
}
