ghost use Rattle.std.specs.Prelude.{◌≡◌, ℕ, List};
ghost use Rattle.pb_read.specs.Faults.{of_whole_error};

use pb_names::Name;
use pb_provider::ReadWholeError;

/// Why a key was not looked up.
#[derive(Clone, Copy, Debug, PartialEq, Eq, thiserror::Error)]
pub enum ReadFault {
    #[error("the disk failed")]
    Disk,
    #[error("the bucket failed")]
    Bucket,
    /// The object that a number's entry names isn't there.
    #[error("an object is missing")]
    Missing(Name),
    /// The bytes under this name are no table of the size that the version keeps.
    #[error("a table is damaged")]
    Damaged(Name),
    #[error("no memory")]
    NoMemory,
}

/// The fault of a reading that failed.
pub(crate) fn of_whole(error: ReadWholeError) -> ReadFault
    ensures value { result ≡ of_whole_error error }
    ensures not_damaged { (name : List ℕ) → result ≡ ReadFault.Damaged name → ⊥ }
{
    match error {
        ReadWholeError::Disk => ReadFault::Disk,
        ReadWholeError::Bucket => ReadFault::Bucket,
        ReadWholeError::Missing(name) => ReadFault::Missing(name),
        ReadWholeError::NoMemory => ReadFault::NoMemory,
    }
}
