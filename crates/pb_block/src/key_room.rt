ghost use Rattle.std.specs.Prelude.{◌≡◌, ◌+◌, ◌≤◌, [], ◌++◌, length, take, nat_le, if◌then◌else◌};
ghost use Rattle.pb_keys.specs.Key.{IsKeyLength, suffix_start};

use crate::order::split_of;
use pb_keys::MAX_KEY;
use std::marker::Model;

/// The key of an entry, whose first bytes stay where the next one shares them.
#[derive(Drop)]
pub(crate) struct KeyRoom {
    bytes: [u8; MAX_KEY],
    len: usize,
    /// Where its suffix begins.
    split: usize,
}

impl Model for KeyRoom {
    ghost use Rattle.std.specs.Prelude.{◌≡◌, ◌≤◌, ℕ, List, take};
    ghost use Rattle.pb_keys.specs.Key.{IsKeyLength, suffix_start};

    ghost Value = { List ℕ };

    ghost view = { λ k. take k.len k.bytes };

    ghost invariant = { λ k. IsKeyLength k.len × (k.split ≡ suffix_start (take k.len k.bytes)) };
}

impl KeyRoom {
    pub(crate) fn new() -> KeyRoom
        ensures { result ≡ [] }
    {
        KeyRoom {
            bytes: [0; MAX_KEY],
            len: 0,
            split: 0,
        }
    }

    pub(crate) fn as_slice(&self) -> &[u8]
        ensures value { result.now ≡ self.now }
        ensures within { IsKeyLength (length result.now) }
    {
        &self.bytes[..self.len]
    }

    pub(crate) fn len(&self) -> usize
        ensures value { result ≡ length self.now }
        ensures within { IsKeyLength result }
    {
        self.len
    }

    pub(crate) fn split(&self) -> usize
        ensures { result ≡ suffix_start self.now }
    {
        self.split
    }

    /// Keeps so many bytes, and puts others behind them.
    pub(crate) fn put(&mut self, shared: usize, unshared: &[u8])
        requires shared { shared ≤ length self.old }
        requires within { IsKeyLength (shared + length unshared.now) }
        ensures { self.new ≡ take shared self.old ++ unshared.now }
    {
        let end = shared + unshared.len();
        self.split = split_behind(self.split, shared, unshared);
        self.bytes[shared..end].copy_from_slice(unshared);
        self.len = end;
    }
}

/// Where the suffix begins of a key that keeps so many bytes of one with this split.
fn split_behind(split: usize, shared: usize, unshared: &[u8]) -> usize
    requires { IsKeyLength (shared + length unshared.now) }
    ensures { result ≡ (if nat_le shared split then shared + suffix_start unshared.now else split) }
{
    if shared <= split {
        return shared + split_of(unshared);
    }
    split
}
