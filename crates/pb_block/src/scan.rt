ghost use Rattle.std.specs.Prelude.{◌≡◌, ◌≤◌, ◌<◌, None, Some, IsTrue, IsFalse, not, nat_eq, length};
ghost use Rattle.std.specs.Option.{option_map};
ghost use Rattle.pb_block.specs.Reading.{stripped, restarts_behind, start_of, step, checks};

use crate::entry::split_entry;
use crate::follows::may_follow;
use crate::key_room::KeyRoom;
use crate::order::is_key;
use pb_bytes::be32;
use std::marker::Model;

/// The last entry begins below this place.
pub(crate) const ENTRIES_LIMIT: usize = 1_048_576;

/// A place between the entries of bytes that may be a block.
#[derive(Drop)]
pub(crate) struct Scan<'a> {
    /// The number of the entries before it.
    entry: usize,
    at: usize,
    before: KeyRoom,
    restarts: &'a [u8],
    bytes: &'a [u8],
}

impl<'a> Model for Scan<'a> {
    ghost use Rattle.std.specs.Prelude.{◌<◌, ◌≤◌, ◌+◌, ◌^◌, length};
    ghost use Rattle.pb_block.specs.Reading.{Place};

    ghost Value = { Place };

    ghost view = { λ s. record { entry = s.entry; at = s.at; before = s.before; restarts = s.restarts.now; bytes = s.bytes.now } };

    ghost invariant = { λ s. (s.entry ≤ s.at) × (s.at + length s.bytes.now < 2 ^ 64) };
}

impl<'a> Scan<'a> {
    pub(crate) fn new(entries: &'a [u8], restarts: &'a [u8]) -> Scan<'a>
        ensures { result ≡ start_of entries.now restarts.now }
    {
        Scan {
            entry: 0,
            at: 0,
            before: KeyRoom::new(),
            restarts,
            bytes: entries,
        }
    }

    fn has_entries(&self) -> bool
        ensures { result ≡ not (nat_eq (length self.now.bytes) 0) }
    {
        !self.bytes.is_empty()
    }

    fn has_no_restart(&self) -> bool
        ensures { result ≡ nat_eq (length self.now.restarts) 0 }
    {
        self.restarts.is_empty()
    }

    /// Goes behind the next entry, if it may stand there.
    #[tactic(auto, unfolding(crate::specs::Reading::next_place))]
    fn step<const R: usize>(&mut self) -> bool
        requires { 1 ≤ R }
        ensures goes { IsTrue result → step R self.old ≡ Some self.new }
        ensures stays { IsFalse result → step R self.old ≡ None }
    {
        if self.at >= ENTRIES_LIMIT {
            return false;
        }
        let Some(restarts) = strip_restart::<R>(self.entry, self.at, self.restarts) else {
            return false;
        };
        let Some((entry, rest)) = split_entry(self.before.len(), self.bytes) else {
            return false;
        };
        if !may_follow::<R>(self.entry, &self.before, &entry) {
            return false;
        }
        self.before.put(entry.shared, entry.unshared);
        if !is_key(self.before.as_slice()) {
            return false;
        }
        self.entry += 1;
        self.at += self.bytes.len() - rest.len();
        self.restarts = restarts;
        self.bytes = rest;
        true
    }
}

/// The restarts behind that of the entry of this number, which begins at this place, where it is one.
fn strip_restart<const R: usize>(entry: usize, at: usize, restarts: &[u8]) -> Option<&[u8]>
    requires distance { 1 ≤ R }
    requires within { at < 1048576 }
    ensures { option_map (λ rest. rest.now) result ≡ restarts_behind R entry at restarts.now }
{
    if entry % R != 0 {
        return Some(restarts);
    }
    strip(&be32(at as u32), restarts)
}

fn strip<'a>(front: &[u8], bytes: &'a [u8]) -> Option<&'a [u8]>
    ensures { option_map (λ rest. rest.now) result ≡ stripped front.now bytes.now }
{
    bytes.strip_prefix(front)
}

/// Whether these are the entries of a block, and these its restarts.
pub(crate) fn is_run<const R: usize>(entries: &[u8], restarts: &[u8]) -> bool
    requires { 1 ≤ R }
    ensures { result ≡ checks R (length entries.now) (start_of entries.now restarts.now) }
{
    let mut scan = Scan::new(entries, restarts);
    while scan.has_entries() {
        if !scan.step::<R>() {
            return false;
        }
    }
    scan.has_no_restart()
}
