use std::alloc::{AllocError, AllocFailed};

/// Why words say nothing.
#[derive(Debug, Drop)]
pub enum WordFault {
    OffGrammar,
    NoMemory,
}

impl From<AllocError> for WordFault {
    ghost use Rattle.std.specs.Prelude.{◌≡◌};
    ghost use Rattle.pb_script.specs.declared.fault.WordFault.TheVariants.{NoMemory};

    ghost from_gives = { λ _ fault. fault ≡ NoMemory };

    fn from(_error: AllocError) -> WordFault {
        WordFault::NoMemory
    }
}

impl<T: Drop> From<AllocFailed<T>> for WordFault {
    ghost use Rattle.std.specs.Prelude.{◌≡◌};
    ghost use Rattle.pb_script.specs.declared.fault.WordFault.TheVariants.{NoMemory};

    ghost from_gives = { λ _ fault. fault ≡ NoMemory };

    fn from(_error: AllocFailed<T>) -> WordFault {
        WordFault::NoMemory
    }
}

/// Why there are no lines.
#[derive(Clone, Copy, Debug, PartialEq, Eq, thiserror::Error)]
pub enum ParseError {
    /// The first line that is off the grammar, counted from 1.
    #[error("fault line {0}")]
    Fault(u64),
    #[error("out of memory")]
    NoMemory,
}

impl From<AllocError> for ParseError {
    ghost use Rattle.std.specs.Prelude.{◌≡◌};
    ghost use Rattle.pb_script.specs.declared.fault.ParseError.TheVariants.{NoMemory};

    ghost from_gives = { λ _ error. error ≡ NoMemory };

    fn from(_error: AllocError) -> ParseError {
        ParseError::NoMemory
    }
}

impl<T: Drop> From<AllocFailed<T>> for ParseError {
    ghost use Rattle.std.specs.Prelude.{◌≡◌};
    ghost use Rattle.pb_script.specs.declared.fault.ParseError.TheVariants.{NoMemory};

    ghost from_gives = { λ _ error. error ≡ NoMemory };

    fn from(_error: AllocFailed<T>) -> ParseError {
        ParseError::NoMemory
    }
}
