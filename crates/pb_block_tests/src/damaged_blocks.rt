ghost use Rattle.std.specs.Prelude.{◌≤◌, ◌<◌, length};

use crate::pairs::{Pair, add_pair, block_of, pairs_of};
use pb_block::{BlockCursor, BlockReader};
use pb_keys::Bytes;
use std::alloc::Global;
use std::process::Abort;
use std::test::Fail;

// The rows to come, of which there are at most so many.
fn rows_left(alloc: Global, cursor: &mut BlockCursor<'_>, most: usize) -> Result<Vec<Pair>, Fail> {
    let mut pairs = Vec::new(alloc);
    for _ in 0..most {
        if !cursor.advance() {
            break;
        }
        add_pair(alloc, &mut pairs, cursor.key(), cursor.value())?;
    }
    Ok(pairs)
}

// What is written of the rows that the bytes have; None where they are no block.
fn rewritten<const R: usize>(alloc: Global, bytes: &[u8]) -> Result<Option<Bytes>, Fail>
    requires { 1 ≤ R }
{
    let Some(reader) = BlockReader::<R>::new(bytes) else {
        return Ok(None);
    };
    let mut cursor = reader.seek(b"", b"");
    let pairs = rows_left(alloc, &mut cursor, bytes.len())?;
    let again = block_of::<R>(alloc, &pairs)?;
    Ok(Some(again))
}

// Whether the bytes are no block, or are written of the rows that they have.
fn is_stable<const R: usize>(alloc: Global, bytes: &[u8]) -> Result<bool, Fail>
    requires { 1 ≤ R }
{
    match rewritten::<R>(alloc, bytes)? {
        Some(again) => Ok(again.as_slice() == bytes),
        None => Ok(true),
    }
}

fn few(alloc: Global) -> Result<Vec<Pair>, Fail> {
    pairs_of(
        alloc,
        &[
            ("a", Some("1")),
            ("a@9", None),
            ("a!", Some("")),
            ("b@1", None),
            ("b@12", Some("value")),
        ],
    )
}

// With some bytes at this place.
fn damage_at<const R: usize>(
    rt: &impl Abort,
    alloc: Global,
    block: &[u8],
    at: usize,
) -> Result<(), Fail>
    requires distance { 1 ≤ R }
    requires within { at < length block.now }
{
    for byte in [0, 1, 0x7f, 0x80, 0xff] {
        let mut damaged = Vec::from_slice(alloc, block)?;
        damaged[at] = byte;
        assert!(rt; is_stable::<R>(alloc, &damaged)?, "{byte} at {at} at {R}");
    }
    Ok(())
}

fn damage<const R: usize>(rt: &impl Abort, alloc: Global) -> Result<(), Fail>
    requires { 1 ≤ R }
{
    let pairs = few(alloc)?;
    let bytes = block_of::<R>(alloc, &pairs)?;
    let block = bytes.as_slice();
    for at in 0..block.len() {
        assert!(rt; is_stable::<R>(alloc, &block[..at])?, "{at} bytes at {R}");
        damage_at::<R>(rt, alloc, block, at)?;
    }
    Ok(())
}

#[test]
fn what_is_read_is_written_to_the_same_bytes(rt: HostRuntime) -> Result<(), Fail> {
    damage::<1>(&rt, rt.alloc())?;
    damage::<2>(&rt, rt.alloc())?;
    damage::<16>(&rt, rt.alloc())?;
    Ok(())
}

fn is_block(bytes: &[u8]) -> bool {
    BlockReader::<16>::new(bytes).is_some()
}

#[test]
fn what_no_rows_spell_is_no_block(rt: HostRuntime) -> Result<(), Fail> {
    for (bytes, why) in [
        (b"".as_slice(), "nothing"),
        (b"\x00\x00\x00\x00".as_slice(), "no entry"),
        (b"\x00\x01\x00a\x00\x00\x00\x00".as_slice(), "no restart"),
        (
            b"\x00\x01\x00a\x00\x00\x00\x01\x00\x00\x00\x01".as_slice(),
            "a wrong restart",
        ),
        (
            b"\x00\x01\x00a\x00\x00\x00\x00\x00\x00\x00\x02".as_slice(),
            "another number of restarts",
        ),
        (
            b"\x00\x01\x00a\x00\x01\x00b\x00\x00\x00\x00\x00\x00\x00\x04\x00\x00\x00\x02".as_slice(),
            "a restart too many",
        ),
        (
            b"\x00\x01\x00a\x00\x02\x00ab\x00\x00\x00\x00\x00\x00\x00\x01".as_slice(),
            "less is shared than could be",
        ),
        (
            b"\x01\x00\x00\x00\x00\x00\x00\x00\x00\x00\x01".as_slice(),
            "more is shared than there is",
        ),
        (
            b"\x80\x00\x01\x00a\x00\x00\x00\x00\x00\x00\x00\x01".as_slice(),
            "a longer spelling of a number",
        ),
        (
            b"\x00\x02\x00a!\x01\x02\x00@9\x00\x00\x00\x00\x00\x00\x00\x01".as_slice(),
            "falling keys",
        ),
        (
            b"\x00\x01\x00a\x01\x00\x00\x00\x00\x00\x00\x00\x00\x00\x01".as_slice(),
            "equal keys",
        ),
        (
            b"\x00\x02\x00@a\x00\x00\x00\x00\x00\x00\x00\x01".as_slice(),
            "a suffix alone",
        ),
        (
            b"\x00\x00\x00\x00\x00\x00\x00\x00\x00\x00\x01".as_slice(),
            "an empty key",
        ),
        (
            b"\x00\x01\x00a\x00\x00\x00\x00\x00\x00\x00\x00\x01".as_slice(),
            "a byte behind the last entry",
        ),
    ] {
        assert!(rt; !is_block(bytes), "{why}");
    }
    Ok(())
}
