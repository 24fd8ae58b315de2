ghost use Rattle.std.specs.Prelude.{◌≤◌};

use crate::pairs::{Pair, block_of, forty, goes_over};
use pb_block::BlockReader;
use std::alloc::Global;
use std::process::Abort;
use std::test::Fail;

// Up to the first '@', and from there on.
fn parts_of(key: &[u8]) -> (&[u8], &[u8]) {
    for at in 0..key.len() {
        if key[at] == b'@' {
            return key.split_at(at);
        }
    }
    key.split_at(key.len())
}

fn is_below(key: &[u8], prefix: &[u8], suffix: &[u8]) -> bool {
    let (own_prefix, own_suffix) = parts_of(key);
    own_prefix < prefix || (own_prefix == prefix && own_suffix < suffix)
}

// The rows from the first on that isn't below, by looking at each.
fn plain_from<'a>(pairs: &'a [Pair], prefix: &[u8], suffix: &[u8]) -> &'a [Pair] {
    for at in 0..pairs.len() {
        if !is_below(pairs[at].key.as_slice(), prefix, suffix) {
            return &pairs[at..];
        }
    }
    &[]
}

fn seeks<const R: usize>(
    reader: &BlockReader<'_, R>,
    pairs: &[Pair],
    prefix: &[u8],
    suffix: &[u8],
) -> bool {
    let mut cursor = reader.seek(prefix, suffix);
    goes_over(&mut cursor, plain_from(pairs, prefix, suffix))
}

// With each of some suffixes.
fn seeks_all<const R: usize>(reader: &BlockReader<'_, R>, pairs: &[Pair], prefix: &[u8]) -> bool {
    for suffix in [b"".as_slice(), b"@", b"@1", b"@11", b"@9", b"@99", b"z"] {
        if !seeks(reader, pairs, prefix, suffix) {
            return false;
        }
    }
    true
}

// At the key's prefix, and before and behind it.
fn seek_around<const R: usize>(
    rt: &impl Abort,
    alloc: Global,
    reader: &BlockReader<'_, R>,
    pairs: &[Pair],
    key: &[u8],
) -> Result<(), Fail> {
    let (prefix, _) = parts_of(key);
    let mut bytes = Vec::from_slice(alloc, prefix)?;
    assert!(rt; seeks_all(reader, pairs, &bytes), "{key:?}");
    bytes.push(0)?;
    assert!(rt; seeks_all(reader, pairs, &bytes), "behind {key:?}");
    bytes.truncate(prefix.len().saturating_sub(1));
    assert!(rt; seeks_all(reader, pairs, &bytes), "before {key:?}");
    Ok(())
}

fn compare<const R: usize>(rt: &impl Abort, alloc: Global, pairs: &[Pair]) -> Result<(), Fail>
    requires { 1 ≤ R }
{
    let bytes = block_of::<R>(alloc, pairs)?;
    let reader = BlockReader::<R>::new(bytes.as_slice()).ok_or("no block")?;
    for pair in pairs {
        seek_around(rt, alloc, &reader, pairs, pair.key.as_slice())?;
    }
    assert!(rt; seeks_all(&reader, pairs, b"\xff"), "behind all at {R}");
    Ok(())
}

#[test]
fn a_row_is_found_as_by_looking_at_each(rt: HostRuntime) -> Result<(), Fail> {
    let pairs = forty(rt.alloc(), b"another")?;
    compare::<1>(&rt, rt.alloc(), &pairs)?;
    compare::<2>(&rt, rt.alloc(), &pairs)?;
    compare::<16>(&rt, rt.alloc(), &pairs)?;
    Ok(())
}
