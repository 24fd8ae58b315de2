ghost use Rattle.std.specs.Prelude.{◌≡◌, ◌+◌, ◌<◌, ◌^◌};
ghost use Rattle.pb_manifest.specs.Rotation.{does_more, has_lists, has_other_numbers, is_mostly_history, may_draw, may_precede};
ghost use Rattle.pb_manifest.specs.Numbers.{block_end};

use crate::numbers::BLOCK;
use pb_bytes::NUMBERS;
use pb_edit::Edit;

/// A manifest of fewer bytes isn't rotated.
pub const ROTATED_LEN: u64 = 1_048_576;

/// A manifest that is rotated has at least so many times the bytes of its first payload.
pub const ROTATED_TIMES: u64 = 4;

/// Whether most of a manifest is history, by the length of its file and of its first payload.
pub(crate) fn is_mostly_history(len: u64, first: u64) -> bool
    ensures { result ≡ is_mostly_history len first }
{
    len >= ROTATED_LEN && first <= len / ROTATED_TIMES
}

/// Whether an edit does more than reserve numbers.
pub(crate) fn does_more(edit: &Edit) -> bool
    ensures { result ≡ does_more edit.now }
{
    has_other_numbers(edit) || has_lists(edit)
}

fn has_other_numbers(edit: &Edit) -> bool
    ensures { result ≡ has_other_numbers edit.now }
{
    edit.accepted.is_some() || edit.log.is_some() || edit.flushed.is_some() || edit.format.is_some()
}

fn has_lists(edit: &Edit) -> bool
    ensures { result ≡ has_lists edit.now }
{
    !edit.deleted.as_slice().is_empty()
        || !edit.physical.as_slice().is_empty()
        || !edit.virtuals.as_slice().is_empty()
        || !edit.created.as_slice().is_empty()
        || !edit.removed.as_slice().is_empty()
}

/// Whether this number may be drawn before the edit, where those below the other are reserved: a block that is wanted ends
/// below 2^62, and breaks no rule of the edit.
pub(crate) fn may_draw(number: u64, reserved: u64, edit: &Edit) -> bool
    requires { reserved < 2 ^ 62 }
    ensures { result ≡ may_draw (block_end reserved (number + 1)) edit.now }
{
    if number >= NUMBERS {
        return false;
    }
    let end = end_behind(number, reserved);
    end < NUMBERS && may_precede(end, edit.next)
}

// The end of the reserved numbers once this one is drawn.
fn end_behind(number: u64, reserved: u64) -> u64
    requires reserved { reserved < 2 ^ 62 }
    requires number { number < 2 ^ 62 }
    ensures { result ≡ block_end reserved (number + 1) }
{
    if number < reserved {
        return reserved;
    }
    reserved + BLOCK * ((number - reserved) / BLOCK + 1)
}

fn may_precede(end: u64, next: Option<u64>) -> bool
    ensures { result ≡ may_precede end next }
{
    match next {
        None => true,
        Some(next) => end <= next,
    }
}
