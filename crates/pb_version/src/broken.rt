use std::alloc::AllocError;

/// The first rule that an edit breaks. Nothing has changed then.
#[derive(Clone, Copy, Debug, PartialEq, Eq, thiserror::Error)]
pub enum Broken {
    #[error("a deleted table isn't in the version at that level")]
    V1,
    #[error("a new table's number is in use, or its number or rank isn't reserved")]
    V2,
    #[error("a new table's ends are no span, or it has a prefix or suffix that it may not have")]
    V3,
    #[error("a new table overlaps another of its level, on level 0 one of its rank")]
    V4,
    #[error("a created backing is there, is neither that of a deleted physical table nor of a free number, or isn't reserved")]
    V5,
    #[error("a virtual table's backing isn't there after the edit")]
    V6,
    #[error("a removed backing wasn't there, or a backing has no virtual table after the edit")]
    V7,
    /// Of the five the number of the log may fall.
    #[error("counts, reserved numbers or format fall, the five numbers don't fit each other, or one is missing in the first edit")]
    V8,
    #[error("more than 4,096 tables stand after the edit")]
    V9,
    #[error("out of memory")]
    NoMemory,
}

impl From<AllocError> for Broken {
    ghost use Rattle.std.specs.Prelude.{◌≡◌};
    ghost use Rattle.pb_version.specs.declared.broken.Broken.TheVariants.{NoMemory};

    ghost from_gives = { λ _ error. error ≡ NoMemory };

    fn from(_error: AllocError) -> Broken {
        Broken::NoMemory
    }
}
