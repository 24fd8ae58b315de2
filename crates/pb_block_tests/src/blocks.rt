ghost use Rattle.std.specs.Prelude.{◌≤◌};

use crate::pairs::{Pair, add_pair, are_pairs, block_of, forty, pairs_of, reads};
use pb_block::laws;
use pb_bytes::{be32, read_be32, split_varint};
use std::alloc::Global;
use std::process::Abort;
use std::test::Fail;

const WORKED: [u8; 13] = [0, 1, 2, b'a', b'1', 0, 0, 0, 0, 0, 0, 0, 1];

#[test]
fn the_worked_block_is_written_and_read(rt: HostRuntime) -> Result<(), Fail> {
    let pairs = pairs_of(rt.alloc(), &[("a", Some("1"))])?;
    let bytes = block_of::<16>(rt.alloc(), &pairs)?;
    assert_eq!(rt; bytes.as_slice(), WORKED.as_slice());
    assert!(rt; reads::<16>(&WORKED, &pairs));
    assert!(rt; reads::<1>(&WORKED, &pairs));
    Ok(())
}

fn split(from: &[u8], len: u64) -> Option<(&[u8], &[u8])> {
    if len > from.len() as u64 {
        return None;
    }
    Some(from.split_at(len as usize))
}

// How much is shared by the entry that begins these bytes, its key's end and its value; and what stands behind it.
fn plain_entry(from: &[u8]) -> Option<(u64, &[u8], Option<&[u8]>, &[u8])> {
    let (shared, rest) = split_varint(from)?;
    let (len, rest) = split_varint(rest)?;
    let (number, rest) = split_varint(rest)?;
    let (end, rest) = split(rest, len)?;
    if number == 0 {
        return Some((shared, end, None, rest));
    }
    let (value, rest) = split(rest, number - 1)?;
    Some((shared, end, Some(value), rest))
}

// The entries and the restarts.
fn plain_parts(bytes: &[u8]) -> Option<(&[u8], &[u8])> {
    let (front, last) = split(bytes, (bytes.len() as u64).checked_sub(4)?)?;
    let size = 4 * read_be32(last)? as u64;
    split(front, (front.len() as u64).checked_sub(size)?)
}

// The rows of a block, and where every R-th entry begins, read from left to right; and the key of the last row.
#[derive(Drop)]
struct Plain {
    pairs: Vec<Pair>,
    restarts: Vec<u8>,
    key: Vec<u8>,
}

impl Plain {
    fn new(alloc: Global) -> Plain {
        Plain {
            pairs: Vec::new(alloc),
            restarts: Vec::new(alloc),
            key: Vec::new(alloc),
        }
    }

    fn add_restart(&mut self, at: usize) -> Result<(), Fail> {
        let at = u32::try_from(at).ok().ok_or("too far")?;
        self.restarts.extend_from_slice(&be32(at))?;
        Ok(())
    }

    // The key of an entry stands behind so many bytes of the one before.
    fn put_key(&mut self, shared: u64, end: &[u8]) -> Result<(), Fail> {
        let len = usize::try_from(shared).ok().ok_or("too much")?;
        self.key.truncate(len);
        self.key.extend_from_slice(end)?;
        Ok(())
    }

    // Adds the entry that begins these bytes. What stands behind it is returned.
    fn add_entry<'a>(&mut self, alloc: Global, from: &'a [u8]) -> Result<&'a [u8], Fail> {
        let (shared, end, value, rest) = plain_entry(from).ok_or("no entry")?;
        self.put_key(shared, end)?;
        add_pair(alloc, &mut self.pairs, &self.key, value)?;
        Ok(rest)
    }
}

fn plain_of<const R: usize>(alloc: Global, entries: &[u8]) -> Result<Plain, Fail>
    requires { 1 ≤ R }
{
    let mut plain = Plain::new(alloc);
    let mut rest = entries;
    for number in 0..entries.len() {
        if rest.is_empty() {
            break;
        }
        if number % R == 0 {
            plain.add_restart(entries.len().saturating_sub(rest.len()))?;
        }
        rest = plain.add_entry(alloc, rest)?;
    }
    Ok(plain)
}

// Whether the block has these rows, as a plain reader has them.
fn is_plain<const R: usize>(alloc: Global, bytes: &[u8], pairs: &[Pair]) -> Result<bool, Fail>
    requires { 1 ≤ R }
{
    let (entries, restarts) = plain_parts(bytes).ok_or("no parts")?;
    let plain = plain_of::<R>(alloc, entries)?;
    Ok(are_pairs(&plain.pairs, pairs) && plain.restarts.as_slice() == restarts)
}

fn compare<const R: usize>(rt: &impl Abort, alloc: Global, pairs: &[Pair]) -> Result<(), Fail>
    requires { 1 ≤ R }
{
    let bytes = block_of::<R>(alloc, pairs)?;
    assert!(rt; is_plain::<R>(alloc, bytes.as_slice(), pairs)?, "at {R}");
    assert!(rt; reads::<R>(bytes.as_slice(), pairs), "at {R}");
    Ok(())
}

#[test]
fn forty_rows_are_read_as_a_plain_reader_does(rt: HostRuntime) -> Result<(), Fail> {
    let longest = vec![in rt.alloc(); b'v'; 65_536]?;
    let pairs = forty(rt.alloc(), &longest)?;
    compare::<1>(&rt, rt.alloc(), &pairs)?;
    compare::<2>(&rt, rt.alloc(), &pairs)?;
    compare::<16>(&rt, rt.alloc(), &pairs)?;
    Ok(())
}

#[test]
fn the_laws_of_blocks_hold() {
    laws::one_block();
    laws::every_distance_keeps_the_rows();
}
