ghost use Rattle.std.specs.Prelude.{◌≡◌, ◌+◌, ◌*◌, ◌≤◌, IfSome, length, take, drop};
ghost use Rattle.pb_bytes.specs.BigEndian.{number_of};
ghost use Rattle.pb_block.specs.Blocks.{rows_from};
ghost use Rattle.pb_block.specs.Cursors.{before_rows, PassesOver};
ghost use Rattle.pb_block.specs.Held.{IsHeld};

use crate::cursor::BlockCursor;
use crate::entry::split_entry;
use crate::order::is_below;
use crate::reader::BlockReader;
use pb_bytes::read_be32;

impl<'a, const R: usize> BlockReader<'a, R> {
    /// A cursor before the first row whose key isn't below the one with these parts, which may be any two byte strings. It halves the
    /// restarts, and then goes over R entries at most.
    pub fn seek(&self, prefix: &[u8], suffix: &[u8]) -> BlockCursor<'a>
        ensures { result ≡ before_rows (rows_from self.now prefix.now suffix.now) }
    {
        let start = find_start::<R>(self.entries, self.restarts, prefix, suffix);
        let (_, rest) = self.entries.split_at(start);
        let mut cursor = BlockCursor::new(rest);
        cursor.skip_below(prefix, suffix);
        cursor
    }
}

/// Where the last restart begins whose key is below the one with these parts, or else the first.
fn find_start<const R: usize>(
    entries: &[u8],
    restarts: &[u8],
    prefix: &[u8],
    suffix: &[u8],
) -> usize
    requires { IsHeld R entries.now restarts.now }
    ensures { PassesOver entries.now prefix.now suffix.now result }
{
    let mut start = 0;
    let mut low = 0;
    let mut high = restarts.len() / 4;
    while low < high {
        let middle = low + (high - low) / 2;
        match place_below::<R>(entries, restarts, middle, prefix, suffix) {
            Some(place) => {
                start = place;
                low = middle + 1;
            }
            None => high = middle,
        }
    }
    start
}

/// Where this restart begins, if its key is below the one with these parts.
fn place_below<const R: usize>(
    entries: &[u8],
    restarts: &[u8],
    restart: usize,
    prefix: &[u8],
    suffix: &[u8],
) -> Option<usize>
    requires held { IsHeld R entries.now restarts.now }
    requires within { 4 * restart + 4 ≤ length restarts.now }
    ensures { IfSome result (PassesOver entries.now prefix.now suffix.now) }
{
    let place = place_of(restarts, restart);
    let (_, rest) = entries.split_at(place);
    let (entry, _) = split_entry(0, rest)?;
    if is_below(entry.unshared, prefix, suffix) {
        return Some(place);
    }
    None
}

fn place_of(restarts: &[u8], restart: usize) -> usize
    requires { 4 * restart + 4 ≤ length restarts.now }
    ensures { result ≡ number_of (take 4 (drop (4 * restart) restarts.now)) }
{
    let (_, rest) = restarts.split_at(4 * restart);
    match read_be32(rest) {
        Some(place) => place as usize,
        None => unreachable!(),
    }
}
