ghost use Rattle.std.specs.Prelude.{◌≤◌, IfOk, length};
ghost use Rattle.pb_bytes.specs.Reading.{number_split, field_split};
ghost use Rattle.pb_edit.specs.Reading.{Gives, level_at, optional_at};

use super::LAST_LEVEL;
use pb_bytes::{split_field, split_number};
use pb_keys::Bytes;
use std::alloc::{AllocError, AllocFailed, Global};

/// Why there is nothing to read.
#[derive(Debug, Drop)]
pub(crate) enum ReadError {
    /// The bytes are off the grammar.
    Off,
    NoMemory,
}

impl From<AllocError> for ReadError {
    ghost use Rattle.std.specs.Prelude.{◌≡◌};
    ghost use Rattle.pb_edit.specs.declared.read.ReadError.TheVariants.{NoMemory};

    ghost from_gives = { λ _ error. error ≡ NoMemory };

    fn from(_error: AllocError) -> ReadError {
        ReadError::NoMemory
    }
}

impl<T: Drop> From<AllocFailed<T>> for ReadError {
    ghost use Rattle.std.specs.Prelude.{◌≡◌};
    ghost use Rattle.pb_edit.specs.declared.read.ReadError.TheVariants.{NoMemory};

    ghost from_gives = { λ _ error. error ≡ NoMemory };

    fn from(_error: AllocFailed<T>) -> ReadError {
        ReadError::NoMemory
    }
}

/// The number that begins these bytes, and what stands behind it.
pub(crate) fn number_of(from: &[u8]) -> Result<(u64, &[u8]), ReadError>
    ensures exact { Gives (λ read. (read.0, read.1.now)) result (number_split from.now) }
    ensures shorter { IfOk result (λ read. length read.1.now ≤ length from.now) }
{
    let Some((number, rest)) = split_number(from) else {
        return Err(ReadError::Off);
    };
    Ok((number, rest))
}

/// A copy of the bytes of the field that begins these bytes, and what stands behind it.
pub(crate) fn bytes_of(alloc: Global, from: &[u8]) -> Result<(Bytes, &[u8]), ReadError>
    ensures exact { Gives (λ read. (read.0, read.1.now)) result (field_split from.now) }
    ensures shorter { IfOk result (λ read. length read.1.now ≤ length from.now) }
{
    let Some((content, rest)) = split_field(from) else {
        return Err(ReadError::Off);
    };
    let bytes = Bytes::new(alloc, content)?;
    Ok((bytes, rest))
}

/// The level that begins these bytes, and what stands behind it.
#[tactic(auto, unfolding(crate::specs::Reading::level_at))]
pub(crate) fn level_of(from: &[u8]) -> Result<(u8, &[u8]), ReadError>
    ensures exact { Gives (λ read. (read.0, read.1.now)) result (level_at from.now) }
    ensures shorter { IfOk result (λ read. length read.1.now ≤ length from.now) }
{
    match from {
        [level, rest @ ..] if *level <= LAST_LEVEL => Ok((*level, rest)),
        _ => Err(ReadError::Off),
    }
}

/// The number of this kind, where its item begins these bytes, and what stands behind it.
#[tactic(auto, unfolding(crate::specs::Reading::optional_at))]
pub(crate) fn optional_of(kind: u8, from: &[u8]) -> Result<(Option<u64>, &[u8]), ReadError>
    ensures exact { Gives (λ read. (read.0, read.1.now)) result (optional_at kind from.now) }
{
    match from {
        [byte, rest @ ..] if *byte == kind => {
            let (number, rest) = number_of(rest)?;
            Ok((Some(number), rest))
        }
        _ => Ok((None, from)),
    }
}
