ghost use Rattle.std.specs.Prelude.{◌≤◌, OnOk, length};

use crate::pairs::add_row;
use pb_block::{BlockReader, BlockWriter};
use pb_keys::{Bytes, Key};
use std::alloc::Global;
use std::test::Fail;

// Below so many bytes an entry may begin.
const LIMIT: u64 = 1_048_576;

fn digits(number: u32) -> [u8; 8] {
    let mut digits = [b'0'; 8];
    let mut rest = number;
    for place in 0..8 {
        digits[7 - place] = b'0' + (rest % 10) as u8;
        rest /= 10;
    }
    digits
}

// Adds the row of this number with a value of so many bytes.
fn add_number(
    alloc: Global,
    writer: &mut BlockWriter<16>,
    number: u32,
    len: usize,
) -> Result<(), Fail>
    ensures { OnOk result (1 ≤ length writer.new) }
{
    let value = vec![in alloc; b'v'; len]?;
    add_row(alloc, writer, &digits(number), Some(value.as_slice()))?;
    Ok(())
}

// As many rows, with values of 47 bytes.
fn numbered(alloc: Global, count: u32) -> Result<BlockWriter<16>, Fail> {
    let mut writer = BlockWriter::<16>::new(alloc);
    for number in 0..count {
        add_number(alloc, &mut writer, number, 47)?;
    }
    Ok(writer)
}

// 20,000 rows whose entries have one byte less than the limit.
fn filled(alloc: Global) -> Result<BlockWriter<16>, Fail> {
    let mut writer = numbered(alloc, 19_999)?;
    // The last entry has 6 bytes beside its value: 1, 1 and 3 of its numbers, and 1 that its key doesn't share.
    let left = LIMIT.saturating_sub(7).saturating_sub(writer.size());
    let len = usize::try_from(left).ok().ok_or("too long")?;
    add_number(alloc, &mut writer, 19_999, len)?;
    Ok(writer)
}

// The block of these rows and one of 65,536 bytes behind them.
fn finished(alloc: Global) -> Result<Bytes, Fail> {
    let mut writer = filled(alloc)?;
    add_number(alloc, &mut writer, 20_000, 65_536)?;
    let bytes = writer.finish(alloc)?;
    Ok(bytes)
}

// Whether the row of this number with a value of so many bytes may be added.
fn is_allowed(
    alloc: Global,
    writer: &BlockWriter<16>,
    number: u32,
    len: usize,
) -> Result<bool, Fail> {
    let key = Key::new(alloc, &digits(number))?;
    let value = vec![in alloc; b'v'; len]?;
    Ok(writer.may_add(&key, Some(value.as_slice())))
}

#[test]
fn the_last_entry_begins_below_the_limit(rt: HostRuntime) -> Result<(), Fail> {
    let mut writer = filled(rt.alloc())?;
    assert_eq!(rt; writer.size(), LIMIT - 1);
    assert!(rt;
        !is_allowed(rt.alloc(), &writer, 19_999, 1)?,
        "an equal key"
    );
    assert!(rt;
        !is_allowed(rt.alloc(), &writer, 20_000, 65_537)?,
        "too long a value"
    );
    assert!(rt;
        is_allowed(rt.alloc(), &writer, 20_000, 65_536)?,
        "the longest value"
    );
    add_number(rt.alloc(), &mut writer, 20_000, 0)?;
    assert!(rt; !is_allowed(rt.alloc(), &writer, 20_001, 0)?, "no room");
    Ok(())
}

// How many rows the block has.
fn count_of(reader: &BlockReader<'_, 16>) -> usize {
    let mut cursor = reader.seek(b"", b"");
    let mut count = 0usize;
    for _ in 0..30_000 {
        if !cursor.advance() {
            break;
        }
        count = count.saturating_add(1);
    }
    count
}

// The length of the value of the row of this number, or 0.
fn length_of(reader: &BlockReader<'_, 16>, number: u32) -> usize {
    let key = digits(number);
    let mut cursor = reader.seek(&key, b"");
    if !cursor.advance() {
        return 0;
    }
    if cursor.key() != key.as_slice() {
        return 0;
    }
    match cursor.value() {
        None => 0,
        Some(value) => value.len(),
    }
}

// Whether rows of 500 numbers are found.
fn finds_each(reader: &BlockReader<'_, 16>) -> bool {
    for step in 0..500 {
        if length_of(reader, step * 39) != 47 {
            return false;
        }
    }
    true
}

#[test]
fn a_block_may_be_filled_to_its_limit(rt: HostRuntime) -> Result<(), Fail> {
    let bytes = finished(rt.alloc())?;
    let reader = BlockReader::<16>::new(bytes.as_slice()).ok_or("no block")?;
    assert_eq!(rt; count_of(&reader), 20_001);
    assert!(rt; finds_each(&reader));
    assert_eq!(rt; length_of(&reader, 20_000), 65_536);
    Ok(())
}
