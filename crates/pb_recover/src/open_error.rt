ghost use Rattle.std.specs.Prelude.{◌≡◌};
ghost use Rattle.pb_recover.specs.Calls.{refusal_of};

use pb_devices::Failed;
use pb_manifest::ManifestError;
use pb_names::Name;
use pb_reply::Refusal;
use std::alloc::AllocError;

/// Why a folder was not opened.
#[derive(Clone, Copy, Debug)]
pub(crate) enum OpenError {
    Disk,
    /// The catalogue is that of another store, this one.
    WrongStore(u64),
    /// This file is at fault.
    Damaged(Name),
    NoMemory,
}

impl From<Failed> for OpenError {
    ghost use Rattle.std.specs.Prelude.{◌≡◌};
    ghost use Rattle.pb_recover.specs.declared.open_error.OpenError.TheVariants.{Disk};

    ghost from_gives = { λ _ error. error ≡ Disk };

    fn from(_failed: Failed) -> OpenError {
        OpenError::Disk
    }
}

impl From<AllocError> for OpenError {
    ghost use Rattle.std.specs.Prelude.{◌≡◌};
    ghost use Rattle.pb_recover.specs.declared.open_error.OpenError.TheVariants.{NoMemory};

    ghost from_gives = { λ _ error. error ≡ NoMemory };

    fn from(_error: AllocError) -> OpenError {
        OpenError::NoMemory
    }
}

impl From<ManifestError> for OpenError {
    ghost use Rattle.std.specs.Prelude.{◌≡◌};
    ghost use Rattle.pb_recover.specs.Calls.{of_manifest_error};

    ghost from_gives = { λ from error. error ≡ of_manifest_error from };

    fn from(error: ManifestError) -> OpenError {
        match error {
            ManifestError::Disk => OpenError::Disk,
            ManifestError::Damaged(file) => OpenError::Damaged(file),
            ManifestError::NoMemory => OpenError::NoMemory,
        }
    }
}

/// The refusal by which an error is told.
pub(crate) fn refusal_of(error: OpenError) -> Refusal
    ensures { result ≡ refusal_of error }
{
    match error {
        OpenError::Disk => Refusal::DiskFault,
        OpenError::WrongStore(other) => Refusal::WrongStore(other),
        OpenError::Damaged(file) => Refusal::Damaged(file),
        OpenError::NoMemory => Refusal::NoMemory,
    }
}
