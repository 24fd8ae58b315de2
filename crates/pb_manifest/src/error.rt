use pb_devices::Failed;
use pb_names::Name;
use pb_version::Broken;
use std::alloc::AllocError;

/// Why an edit was not committed, or perhaps not.
#[derive(Clone, Copy, Debug, PartialEq, Eq, thiserror::Error)]
pub enum CommitError {
    /// The edit was committed or not: the manifest is to be opened again.
    #[error("the disk failed")]
    Disk,
    #[error("a rule is broken: {0}")]
    Broken(Broken),
    #[error("a block of numbers would end at 2^62")]
    Spent,
    #[error("out of memory")]
    NoMemory,
}

/// Why a manifest was not opened.
#[derive(Clone, Copy, Debug, PartialEq, Eq, thiserror::Error)]
pub enum ManifestError {
    #[error("the disk failed")]
    Disk,
    #[error("a file of the folder is damaged")]
    Damaged(Name),
    #[error("out of memory")]
    NoMemory,
}

impl From<Failed> for CommitError {
    ghost use Rattle.std.specs.Prelude.{◌≡◌};
    ghost use Rattle.pb_manifest.specs.declared.error.CommitError.TheVariants.{Disk};

    ghost from_gives = { λ _ error. error ≡ Disk };

    fn from(_failed: Failed) -> CommitError {
        CommitError::Disk
    }
}

impl From<AllocError> for CommitError {
    ghost use Rattle.std.specs.Prelude.{◌≡◌};
    ghost use Rattle.pb_manifest.specs.declared.error.CommitError.TheVariants.{NoMemory};

    ghost from_gives = { λ _ error. error ≡ NoMemory };

    fn from(_error: AllocError) -> CommitError {
        CommitError::NoMemory
    }
}

impl From<Broken> for CommitError {
    ghost use Rattle.std.specs.Prelude.{◌≡◌};
    ghost use Rattle.pb_manifest.specs.Judged.{refusal_of};

    ghost from_gives = { λ broken error. error ≡ refusal_of broken };

    fn from(broken: Broken) -> CommitError {
        match broken {
            Broken::NoMemory => CommitError::NoMemory,
            rule => CommitError::Broken(rule),
        }
    }
}

impl From<Failed> for ManifestError {
    ghost use Rattle.std.specs.Prelude.{◌≡◌};
    ghost use Rattle.pb_manifest.specs.declared.error.ManifestError.TheVariants.{Disk};

    ghost from_gives = { λ _ error. error ≡ Disk };

    fn from(_failed: Failed) -> ManifestError {
        ManifestError::Disk
    }
}

impl From<AllocError> for ManifestError {
    ghost use Rattle.std.specs.Prelude.{◌≡◌};
    ghost use Rattle.pb_manifest.specs.declared.error.ManifestError.TheVariants.{NoMemory};

    ghost from_gives = { λ _ error. error ≡ NoMemory };

    fn from(_error: AllocError) -> ManifestError {
        ManifestError::NoMemory
    }
}
