ghost use Rattle.std.specs.Prelude.{◌≤◌, OnOk, length};

use pb_block::{BlockCursor, BlockReader, BlockWriter};
use pb_keys::{Bytes, Key};
use std::alloc::Global;
use std::test::Fail;

/// A key and its value, or None where it is deleted.
#[derive(Drop)]
pub(crate) struct Pair {
    pub(crate) key: Vec<u8>,
    pub(crate) value: Option<Vec<u8>>,
}

impl Pair {
    fn value(&self) -> Option<&[u8]> {
        match &self.value {
            None => None,
            Some(bytes) => Some(bytes.as_slice()),
        }
    }

    fn has(&self, key: &[u8], value: Option<&[u8]>) -> bool {
        self.key.as_slice() == key && are_same(self.value(), value)
    }
}

fn are_same(a: Option<&[u8]>, b: Option<&[u8]>) -> bool {
    match (a, b) {
        (Some(a), Some(b)) => a == b,
        (None, None) => true,
        _ => false,
    }
}

pub(crate) fn are_pairs(a: &[Pair], b: &[Pair]) -> bool {
    if a.len() != b.len() {
        return false;
    }
    for (pair, other) in a.iter().zip(b) {
        if !pair.has(other.key.as_slice(), other.value()) {
            return false;
        }
    }
    true
}

fn copied(alloc: Global, value: Option<&[u8]>) -> Result<Option<Vec<u8>>, Fail> {
    match value {
        None => Ok(None),
        Some(bytes) => {
            let copy = Vec::from_slice(alloc, bytes)?;
            Ok(Some(copy))
        }
    }
}

pub(crate) fn add_pair(
    alloc: Global,
    pairs: &mut Vec<Pair>,
    key: &[u8],
    value: Option<&[u8]>,
) -> Result<(), Fail> {
    let key = Vec::from_slice(alloc, key)?;
    let value = copied(alloc, value)?;
    pairs.push(Pair { key, value })?;
    Ok(())
}

pub(crate) fn pairs_of(alloc: Global, texts: &[(&str, Option<&str>)]) -> Result<Vec<Pair>, Fail> {
    let mut pairs = Vec::new(alloc);
    for (key, text) in texts {
        let value = text.map(|text| text.as_bytes());
        add_pair(alloc, &mut pairs, key.as_bytes(), value)?;
    }
    Ok(pairs)
}

// The value of the row of this number: every fourth is deleted, every fourth has an empty one, and one has the given.
fn value_of(number: u8, given: &[u8]) -> Option<&[u8]> {
    match number % 4 {
        0 => None,
        1 => Some(b"".as_slice()),
        2 if number == 22 => Some(given),
        _ => Some(b"value".as_slice()),
    }
}

fn add_numbered(
    alloc: Global,
    pairs: &mut Vec<Pair>,
    number: u8,
    given: &[u8],
) -> Result<(), Fail> {
    let key = [b'k', b'0' + number / 10 % 10, b'/', b'0' + number % 10];
    add_pair(alloc, pairs, &key, value_of(number, given))
}

/// 40 rows, of which neighbours share beginnings of their keys, and one has the given value.
pub(crate) fn forty(alloc: Global, given: &[u8]) -> Result<Vec<Pair>, Fail> {
    let mut pairs = pairs_of(
        alloc,
        &[
            ("a", None),
            ("a@9", Some("1")),
            ("a!", Some("")),
            ("a!@9", Some("22")),
            ("ab@1", None),
            ("ab@11", Some("1")),
        ],
    )?;
    for number in 0..34 {
        add_numbered(alloc, &mut pairs, number, given)?;
    }
    Ok(pairs)
}

/// Adds a row where it may be added, and fails where it may not.
pub(crate) fn add_row<const R: usize>(
    alloc: Global,
    writer: &mut BlockWriter<R>,
    key: &[u8],
    value: Option<&[u8]>,
) -> Result<(), Fail>
    ensures { OnOk result (1 ≤ length writer.new) }
{
    let key = Key::new(alloc, key)?;
    if !writer.may_add(&key, value) {
        return Err(Fail::from("a row that may not be added"));
    }
    writer.add(alloc, &key, value)?;
    Ok(())
}

/// The block of these rows, of which there has to be one.
pub(crate) fn block_of<const R: usize>(alloc: Global, pairs: &[Pair]) -> Result<Bytes, Fail>
    requires { 1 ≤ R }
{
    let last = pairs.last().ok_or("no rows")?;
    let mut writer = BlockWriter::<R>::new(alloc);
    for pair in &pairs[..pairs.len().saturating_sub(1)] {
        add_row(alloc, &mut writer, pair.key.as_slice(), pair.value())?;
    }
    add_row(alloc, &mut writer, last.key.as_slice(), last.value())?;
    let bytes = writer.finish(alloc)?;
    Ok(bytes)
}

fn is_next(cursor: &mut BlockCursor<'_>, pair: &Pair) -> bool {
    if !cursor.advance() {
        return false;
    }
    pair.has(cursor.key(), cursor.value())
}

/// Whether the cursor goes over these rows, and then stands at none.
pub(crate) fn goes_over(cursor: &mut BlockCursor<'_>, pairs: &[Pair]) -> bool {
    for pair in pairs {
        if !is_next(cursor, pair) {
            return false;
        }
    }
    !cursor.advance()
}

/// Whether the bytes are a block with these rows.
pub(crate) fn reads<const R: usize>(bytes: &[u8], pairs: &[Pair]) -> bool
    requires { 1 ≤ R }
{
    match BlockReader::<R>::new(bytes) {
        None => false,
        Some(reader) => {
            let mut cursor = reader.seek(b"", b"");
            goes_over(&mut cursor, pairs)
        }
    }
}
