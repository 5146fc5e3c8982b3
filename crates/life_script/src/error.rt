//! Why a scenario is not driven.
ghost use Rattle.std.specs.Prelude.{◌≡◌};
ghost use Rattle.life_script.specs.declared.error.DriveError.TheVariants as drive_error;
ghost use Rattle.life_script.specs.declared.error.ReadError.TheVariants as read_error;

use life_core::NoMemory;
use thiserror::Error;

/// Why a scenario is not driven.
#[derive(Clone, Copy, Debug)]
pub enum DriveError {
    /// A header list of the request of this number holds over 1,000 values: its own, one of its trailers,
    /// one of its scripted responses' or one of their trailers.
    TooManyHeaders(u64),
    /// The step of this number is earlier than the one before it; the end counts as the last step.
    ClockBack(u64),
    /// The step of this number is of a request that is not there.
    NoRequest(u64),
    /// Memory is wanted.
    NoMemory,
}

impl From<NoMemory> for DriveError {
    ghost from_gives = { λ _ error. error ≡ drive_error.NoMemory };

    fn from(_: NoMemory) -> DriveError {
        DriveError::NoMemory
    }
}

/// Why bytes are not read as a scenario.
#[derive(Clone, Copy, Debug, Error)]
pub enum ReadError {
    /// They have not the shape of a scenario.
    #[error("bad scenario")]
    BadScenario,
    /// Memory is wanted.
    #[error("out of memory")]
    NoMemory,
}

impl From<NoMemory> for ReadError {
    ghost from_gives = { λ _ error. error ≡ read_error.NoMemory };

    fn from(_: NoMemory) -> ReadError {
        ReadError::NoMemory
    }
}
