use pb_names::Name;
use std::alloc::AllocError;

/// Why a folder has no count and no map.
#[derive(Clone, Copy, Debug, PartialEq, Eq, thiserror::Error)]
pub enum Fault {
    /// The file isn't there, or isn't what the folder needs.
    #[error("a file of the folder is damaged")]
    Damaged(Name),
    #[error("out of memory")]
    NoMemory,
}

impl From<AllocError> for Fault {
    ghost use Rattle.std.specs.Prelude.{◌≡◌};
    ghost use Rattle.pb_folder_reader.specs.declared.fault.Fault.TheVariants.{NoMemory};

    ghost from_gives = { λ _ error. error ≡ NoMemory };

    fn from(_error: AllocError) -> Fault {
        Fault::NoMemory
    }
}
