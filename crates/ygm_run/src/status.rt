//! How a run ends.
ghost use Rattle.std.specs.Prelude.{◌≡◌};
ghost use Rattle.ygm_run.specs.Notes.{number_of};

use crate::words::UsageKind;
use line_input::LineWhy;
use msg_codec::AtLimit;

/// Why a rank's file wasn't read to its end.
#[derive(Clone, Copy, Debug, PartialEq, Eq)]
pub enum InputFault {
    /// A read of the file failed.
    Read,
    /// The line of this number, from 1, is the first bad one.
    Bad { line: u64, why: LineWhy },
}

/// How a run ends.
#[derive(Clone, Copy, Debug, PartialEq, Eq)]
pub enum Status {
    /// The run was complete, and the whole text was written.
    Done,
    /// The words were refused.
    Usage { kind: UsageKind },
    /// The first file, counted from 0, that couldn't be opened. That none after it is tried is only tested.
    OpenFault { file: u32 },
    /// A read of the rank's file failed, and no rank below has a fault.
    ReadFault { rank: u32 },
    /// The first bad line, counted from 1, of the rank's file. No rank below has a fault.
    BadLine { rank: u32, line: u64, why: LineWhy },
    /// The text couldn't be written. What was written is its front, less than all of it.
    WriteFault,
    /// Memory ran out.
    NoMemory,
    /// A counter of the rank is at its limit.
    CountFull { rank: u32, at: AtLimit },
}

impl Status {
    /// The exit status of the program.
    pub fn number(&self) -> u8
        ensures { result ≡ number_of self.now }
    {
        match self {
            Status::Done => 0,
            Status::Usage { .. } => 1,
            Status::OpenFault { .. } => 2,
            Status::ReadFault { .. } => 3,
            Status::BadLine { .. } => 4,
            Status::WriteFault => 5,
            Status::NoMemory => 6,
            Status::CountFull { .. } => 7,
        }
    }
}

/// A run that ended: its status, and the sources that it opened, in the order of the files.
#[derive(Drop)]
pub struct Ended<S> {
    pub status: Status,
    pub sources: Vec<S>,
}
