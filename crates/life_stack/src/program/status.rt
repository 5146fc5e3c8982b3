//! How a run ends.
ghost use Rattle.std.specs.Prelude.{◌≡◌};

/// How a run ended. Each has the number that the process ends with.
#[derive(Clone, Copy, Debug, PartialEq, Eq)]
pub enum Status {
    /// The text was written whole.
    Done = 0,
    /// The words were no command.
    Usage = 2,
    /// The bytes were no scenario that can be driven.
    BadScenario = 4,
    /// The scenario was refused.
    Refused = 5,
    /// A read failed.
    SourceFault = 6,
    /// There were more bytes than are read.
    TooLong = 7,
    /// A write failed.
    SinkFault = 8,
    /// There was no memory.
    NoMemory = 9,
}

impl Status {
    ghost use Rattle.life_stack.specs.Program.Status.{exit_number};

    /// The number that the process ends with.
    pub fn number(self) -> u8
        ensures { result ≡ exit_number self }
    {
        self as u8
    }
}
