//! How a run ends.
ghost use Rattle.std.specs.Prelude.{◌≡◌};
ghost use Rattle.flow_words.specs.Endings.{status_number};
ghost use Rattle.flow_words.specs.declared.status.Status.TheVariants.{NoMemory as NoMemoryStatus};

use std::alloc::AllocError;

/// How a run ends. Its number is the exit status of the program.
#[derive(Clone, Copy, Debug, PartialEq, Eq)]
pub enum Status {
    /// The input was read to its end and all was printed.
    Done,
    /// The words are none that the program knows.
    Usage,
    /// The slots hold no store, or one of another kind.
    Store,
    /// The disk failed.
    StoreFault,
    /// The source failed.
    ReadFault,
    /// The sink failed.
    WriteFault,
    /// There was no memory.
    NoMemory,
    /// The input is longer than 268,435,456 bytes.
    ScriptTooLong,
    /// The input is refused.
    Refused,
}

impl Status {
    /// The exit status.
    pub fn number(self) -> u8
        ensures { result ≡ status_number self }
    {
        match self {
            Status::Done => 0,
            Status::Usage => 1,
            Status::Store => 2,
            Status::StoreFault => 3,
            Status::ReadFault => 4,
            Status::WriteFault => 5,
            Status::NoMemory => 6,
            Status::ScriptTooLong => 7,
            Status::Refused => 8,
        }
    }
}

impl From<AllocError> for Status {
    ghost from_gives = { λ _ e. e ≡ NoMemoryStatus };

    fn from(_fault: AllocError) -> Status {
        Status::NoMemory
    }
}
