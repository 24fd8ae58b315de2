ghost use Rattle.std.specs.Prelude.{◌≡◌, ◌+◌, ◌≤◌, ◌<◌, IfSome, length};
ghost use Rattle.std.specs.Option.{option_map};
ghost use Rattle.pb_keys.specs.Key.{IsKeyLength};
ghost use Rattle.pb_block.specs.Reading.{unshared_at, value_at, entry_at};

use pb_bytes::split_varint;
use pb_keys::MAX_KEY;
use std::marker::Model;

/// An entry as it stands in a block.
#[derive(Drop)]
pub(crate) struct Entry<'a> {
    /// With how many bytes of the key before its key begins.
    pub(crate) shared: usize,
    /// The other bytes of its key.
    pub(crate) unshared: &'a [u8],
    pub(crate) value: Option<&'a [u8]>,
}

impl<'a> Model for Entry<'a> {
    ghost use Rattle.std.specs.Option.{option_map};
    ghost use Rattle.pb_block.specs.Reading.{Entry as ReadEntry};

    ghost Value = { ReadEntry };

    ghost view = { λ e. record { shared = e.shared; unshared = e.unshared.now; value = option_map (λ value. value.now) e.value } };
}

/// The entry that begins these bytes, behind a key of so many, and what stands behind it. None where none does, or its key has more
/// than 1,024 bytes.
pub(crate) fn split_entry(before: usize, from: &[u8]) -> Option<(Entry<'_>, &[u8])>
    requires { IsKeyLength before }
    ensures exact { option_map (λ read. (read.0, read.1.now)) result ≡ entry_at before from.now }
    ensures shared { IfSome result (λ read. read.0.shared ≤ before) }
    ensures within { IfSome result (λ read. IsKeyLength (read.0.shared + length read.0.unshared)) }
    ensures shorter { IfSome result (λ read. length read.1.now < length from.now) }
{
    let (entry, rest) = read_entry(before, from)?;
    Some((entry, rest))
}

#[tactic(auto, unfolding(crate::specs::Reading::entry_at))]
fn read_entry(before: usize, from: &[u8]) -> Option<(Entry<'_>, &[u8])>
    requires { IsKeyLength before }
    ensures { option_map (λ read. (read.0, read.1.now)) result ≡ entry_at before from.now }
{
    let (shared, rest) = split_varint(from)?;
    let (len, rest) = split_varint(rest)?;
    let (number, rest) = split_varint(rest)?;
    let (unshared, rest) = split_unshared(before, shared, len, rest)?;
    let (value, rest) = split_value(number, rest)?;
    let entry = Entry {
        shared: shared as usize,
        unshared,
        value,
    };
    Some((entry, rest))
}

#[tactic(auto, unfolding(crate::specs::Reading::unshared_at))]
fn split_unshared(before: usize, shared: u64, len: u64, from: &[u8]) -> Option<(&[u8], &[u8])>
    requires { IsKeyLength before }
    ensures exact { option_map (λ read. (read.0.now, read.1.now)) result ≡ unshared_at before shared len from.now }
{
    if shared > before as u64 {
        return None;
    }
    if len > MAX_KEY as u64 - shared {
        return None;
    }
    if len > from.len() as u64 {
        return None;
    }
    Some(from.split_at(len as usize))
}

#[tactic(auto, unfolding(crate::specs::Reading::value_at))]
fn split_value(number: u64, from: &[u8]) -> Option<(Option<&[u8]>, &[u8])>
    ensures exact { option_map (λ read. (option_map (λ value. value.now) read.0, read.1.now)) result ≡ value_at number from.now }
{
    if number == 0 {
        return Some((None, from));
    }
    let len = number - 1;
    if len > from.len() as u64 {
        return None;
    }
    let (value, rest) = from.split_at(len as usize);
    Some((Some(value), rest))
}
