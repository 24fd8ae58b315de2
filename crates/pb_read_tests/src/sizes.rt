// Look-ups at the size of the product.
use super::asked::{answers, assert_unasked};
use super::store::{FIRST, Store, make_table, new_store};
use pb_bytes::{put_field, put_varint};
use std::alloc::{AllocError, Global};
use std::process::Abort;
use std::test::Fail;

/// A byte, so many times.
fn repeated(alloc: Global, byte: u8, count: usize) -> Result<Vec<u8>, AllocError> {
    vec![in alloc; byte; count]
}

/// A key of two bytes, the keys rising with the number up to 64.
fn key_of(number: u8) -> [u8; 2] {
    [b'A' + number / 8 % 8, b'a' + number % 8]
}

/// The bytes of the table in which so many keys have this value.
fn table_of(alloc: Global, count: u8, value: &[u8]) -> Result<Vec<u8>, AllocError> {
    let mut out = Vec::new(alloc);
    out.extend_from_slice(&[1, 0, count])?;
    for number in 0..count {
        put_row(alloc, &mut out, number, value)?;
    }
    Ok(out)
}

fn put_row(alloc: Global, out: &mut Vec<u8>, number: u8, value: &[u8]) -> Result<(), AllocError> {
    put_field(alloc, out, &key_of(number))?;
    out.push(1)?;
    put_field(alloc, out, value)
}

/// The edit that brings the table 4 to level 6, from A to I.
fn edit_of(alloc: Global, size: usize) -> Result<Vec<u8>, AllocError> {
    let mut out = Vec::new(alloc);
    out.extend_from_slice(&[7, 6, 4, 4])?;
    put_varint(alloc, &mut out, size as u64)?;
    out.extend_from_slice(&[1, b'A', 1, b'I'])?;
    Ok(out)
}

/// The store whose table 4 has these bytes.
fn store_with(rt: &impl Abort, alloc: Global, bytes: &[u8]) -> Result<Store, Fail> {
    let edit = edit_of(alloc, bytes.len())?;
    let mut store = new_store(rt, alloc, &[FIRST, edit.as_slice()], false)?;
    make_table(rt, &mut store, 4, bytes)?;
    Ok(store)
}

/// Asserts that one of so many keys with this value is found by so many calls.
fn assert_read(
    rt: &impl Abort,
    alloc: Global,
    value: &[u8],
    (count, number): (u8, u8),
    calls: u64,
) -> Result<(), Fail> {
    let bytes = table_of(alloc, count, value)?;
    let mut store = store_with(rt, alloc, bytes.as_slice())?;
    let said = answers(alloc, &mut store, &key_of(number), Some(value), (calls, 0))?;
    assert!(rt; said, "{number}");
    Ok(())
}

#[test]
fn a_table_is_read_in_pieces_of_65_536_bytes(rt: HostRuntime) -> Result<(), Fail> {
    let value = repeated(rt.alloc(), 7, 49_992)?;
    // 199,999 bytes.
    assert_read(&rt, rt.alloc(), value.as_slice(), (4, 2), 4)
}

#[test]
fn a_table_of_4_mib_has_long_values(rt: HostRuntime) -> Result<(), Fail> {
    let value = repeated(rt.alloc(), 9, 65_536)?;
    assert_read(&rt, rt.alloc(), value.as_slice(), (64, 63), 65)
}

/// The first edit, which reserves the numbers below 8,192.
const MANY: &[u8] = b"\x01\0\x02\x80\x40\x03\x03\x04\0\x05\x01";

/// A table of level 0 and of 9 bytes, of a key alone, whose rank is its number.
fn put_table(alloc: Global, edit: &mut Vec<u8>, first: u8, second: u8) -> Result<(), AllocError> {
    let number = 4 + u64::from(first) * 64 + u64::from(second);
    let (first, second) = (first.saturating_add(b'A'), second.saturating_add(b'A'));
    edit.extend_from_slice(&[7, 0])?;
    put_varint(alloc, edit, number)?;
    put_varint(alloc, edit, number)?;
    edit.extend_from_slice(&[9, 2, first, second, 3, first, second, 0])?;
    Ok(())
}

/// The tables of 64 keys that begin with one byte.
fn put_tables(alloc: Global, edit: &mut Vec<u8>, first: u8) -> Result<(), AllocError> {
    for second in 0..64 {
        put_table(alloc, edit, first, second)?;
    }
    Ok(())
}

fn many_tables(alloc: Global) -> Result<Vec<u8>, AllocError> {
    let mut edit = Vec::new(alloc);
    for first in 0..64 {
        put_tables(alloc, &mut edit, first)?;
    }
    Ok(edit)
}

#[test]
fn one_of_4_096_tables_holds_the_key(rt: HostRuntime) -> Result<(), Fail> {
    let alloc = rt.alloc();
    let edit = many_tables(alloc)?;
    let mut store = new_store(&rt, alloc, &[MANY, edit.as_slice()], false)?;
    // The first table has the least rank, so it stands last.
    make_table(&rt, &mut store, 4, b"\x01\0\x01\x02AA\x01\x011")?;
    let said = answers(alloc, &mut store, b"AA", Some(b"1"), (1, 0))?;
    assert!(rt; said);
    assert_unasked(&rt, alloc, &mut store, b"AAa")
}
