ghost use Rattle.std.specs.Prelude.{◌≡◌};
ghost use Rattle.pebble_cli.specs.StoreStates.{error_refusal};

use pb_devices::Failed;
use pb_gate_log::AppendError;
use pb_names::{FileKind, file};
use pb_reply::Refusal;
use std::alloc::AllocError;

/// Why a call of a store failed.
#[derive(Clone, Copy, Debug, PartialEq, Eq)]
pub enum StoreError {
    /// The count would reach 2^62.
    NumbersSpent,
    /// A payload of the log is no command, or the counts don't rise.
    Damaged,
    /// A call of the disk failed.
    DiskFault,
    /// There was no memory.
    NoMemory,
}

impl From<AllocError> for StoreError {
    ghost use Rattle.pebble_cli.specs.declared.store_error.StoreError.TheVariants.{NoMemory};

    ghost from_gives = { λ _ error. error ≡ NoMemory };

    fn from(_: AllocError) -> StoreError {
        StoreError::NoMemory
    }
}

impl From<Failed> for StoreError {
    ghost use Rattle.pebble_cli.specs.declared.store_error.StoreError.TheVariants.{DiskFault};

    ghost from_gives = { λ _ error. error ≡ DiskFault };

    fn from(_: Failed) -> StoreError {
        StoreError::DiskFault
    }
}

/// A payload of two words is too large only for a log that is full, and then nothing was appended.
impl From<AppendError> for StoreError {
    ghost use Rattle.pebble_cli.specs.StoreStates.{append_error};

    ghost from_gives = { λ failed error. error ≡ append_error failed };

    fn from(failed: AppendError) -> StoreError {
        match failed {
            AppendError::Failed => StoreError::DiskFault,
            AppendError::TooLarge => StoreError::NoMemory,
        }
    }
}

impl StoreError {
    /// The refusal that tells the error.
    pub fn refusal(self) -> Refusal
        ensures { result ≡ error_refusal self }
    {
        match self {
            StoreError::NumbersSpent => Refusal::NumbersSpent,
            StoreError::Damaged => Refusal::Damaged(file(FileKind::Log, 3)),
            StoreError::DiskFault => Refusal::DiskFault,
            StoreError::NoMemory => Refusal::NoMemory,
        }
    }
}
