//! Excises at the limits of the rules: of the number of tables, and of the numbers that are reserved.
ghost use Rattle.std.specs.Prelude.{◌+◌, ◌≤◌, ◌^◌, IsTrue, IfOk};
ghost use Rattle.pb_edit.specs.Grammar.{IsEdit};
ghost use Rattle.pb_version.specs.State.{IsSpellable};
ghost use Rattle.pb_version.specs.Version.{all_tables};
ghost use Rattle.pb_excise.specs.Excised.{parts_count};

use crate::plain::{agrees, part, whole};
use crate::stores::{
    counted, decoded, excise, excise_bytes, is_applied, put_numbers, reserve, store_after, store_of,
};
use pb_bytes::{put_field, put_varint};
use pb_edit::Edit;
use pb_excise::{parts, plan, tables_after};
use pb_keys::Span;
use pb_version::{Broken, Version};
use std::alloc::{AllocError, Global};
use std::test::Fail;

/// A physical table of 8 bytes, whose rank is its number.
fn put_row(
    alloc: Global,
    out: &mut Vec<u8>,
    level: u8,
    number: u64,
    lo: &[u8],
    hi: &[u8],
) -> Result<(), AllocError> {
    out.push(7)?;
    out.push(level)?;
    put_varint(alloc, out, number)?;
    put_varint(alloc, out, number)?;
    put_varint(alloc, out, 8)?;
    put_field(alloc, out, lo)?;
    put_field(alloc, out, hi)?;
    Ok(())
}

/// A table on level 6 over each of these keys alone: a, this byte, and one more from A on below `end`. The number after theirs.
fn put_keys(
    alloc: Global,
    out: &mut Vec<u8>,
    first: u64,
    byte: u8,
    end: u8,
) -> Result<u64, AllocError> {
    let mut number = first;
    for last in 65..end {
        put_row(
            alloc,
            out,
            6,
            number,
            &[97, byte, last],
            &[97, byte, last, 0],
        )?;
        number = number.wrapping_add(1);
    }
    Ok(number)
}

/// On level 6, from number 7 on, 63 times 64 tables over one key each, so many more as the end says, and one from k to l.
fn put_level_6(alloc: Global, out: &mut Vec<u8>, end: u8) -> Result<(), AllocError> {
    let mut number = 7;
    for byte in 65..128 {
        number = put_keys(alloc, out, number, byte, 129)?;
    }
    number = put_keys(alloc, out, number, 128, end)?;
    put_row(alloc, out, 6, number, b"k", b"l")?;
    Ok(())
}

fn numbers(alloc: Global) -> Result<Vec<u8>, AllocError> {
    let mut bytes = Vec::new(alloc);
    put_numbers(alloc, &mut bytes, &[(1, 2), (2, 5000), (3, 5), (4, 2)])?;
    Ok(bytes)
}

fn breaks_v9(alloc: Global, version: &mut Version, edit: &Edit) -> Result<bool, AllocError>
    requires { IsSpellable edit.now }
{
    match version.apply(alloc, edit) {
        Err(Broken::V9) => Ok(true),
        Err(Broken::NoMemory) => Err(AllocError),
        _ => Ok(false),
    }
}

/// Whether the excise breaks V9, the numbers of its parts being reserved first.
fn is_too_many(alloc: Global, version: &mut Version, span: &Span) -> Result<bool, AllocError> {
    let next = version.five().next.saturating_add(parts(version, span));
    let Some(bytes) = excise_bytes(alloc, version, span, 3)? else {
        return Ok(false);
    };
    if !reserve(alloc, version, next)? {
        return Ok(false);
    }
    match decoded(alloc, bytes.as_slice())? {
        Some(edit) => breaks_v9(alloc, version, &edit),
        None => Ok(false),
    }
}

#[test]
fn one_table_too_many_is_refused(rt: HostRuntime) -> Result<(), Fail> {
    let alloc = rt.alloc();
    let mut bytes = numbers(alloc)?;
    put_level_6(alloc, &mut bytes, 128)?;
    let Some(mut version) = store_after(alloc, bytes.as_slice())? else {
        panic!(rt; "the store is refused");
    };
    assert_eq!(rt; version.len(), 4096);
    let span = Span::new(alloc, b"kb", b"kc")?;
    assert_eq!(rt; tables_after(&version, &span), 4097);
    assert!(rt; is_too_many(alloc, &mut version, &span)?);
    assert_eq!(rt; version.len(), 4096);
    assert_eq!(rt; version.five().accepted, 2);
    assert_eq!(rt; tables_after(&version, &span), 4097);
    Ok(())
}

#[test]
fn as_many_as_may_stand_are_left(rt: HostRuntime) -> Result<(), Fail> {
    let alloc = rt.alloc();
    let mut bytes = numbers(alloc)?;
    put_row(alloc, &mut bytes, 5, 6, b"kb", b"kb\0")?;
    put_level_6(alloc, &mut bytes, 127)?;
    let Some(mut version) = store_after(alloc, bytes.as_slice())? else {
        panic!(rt; "the store is refused");
    };
    assert_eq!(rt; version.len(), 4096);
    let span = Span::new(alloc, b"kb", b"kc")?;
    assert_eq!(rt; tables_after(&version, &span), 4096);
    assert!(rt; excise(alloc, &mut version, &span)?);
    assert_eq!(rt; version.len(), 4096);
    assert_eq!(rt; version.five().accepted, 3);
    Ok(())
}

/// 2^62 - 3.
const LAST_TWO: u64 = 4_611_686_018_427_387_901;

/// Whether there are two parts at most, and none of the two last numbers of a version is reserved.
fn has_last_two(version: &Version, span: &Span) -> bool
    ensures room { IsTrue result → 4611686018427387901 + parts_count span.now (all_tables version.now) ≤ 2 ^ 62 }
    ensures free { IsTrue result → version.now.five.next ≤ 4611686018427387901 }
{
    let five = version.five();
    five.next <= LAST_TWO && parts(version, span) <= 2
}

/// The edit of an excise with its count, the parts numbered from 2^62 - 3 on.
fn last_edit(alloc: Global, version: &Version, span: &Span) -> Result<Edit, AllocError>
    requires room { 4611686018427387901 + parts_count span.now (all_tables version.now) ≤ 2 ^ 62 }
    requires free { version.now.five.next ≤ 4611686018427387901 }
    ensures ok { IfOk result (λ edit. IsEdit edit) }
{
    // So the proof knows the version's form.
    let _five = version.five();
    let edit = plan(alloc, version, span, LAST_TWO)?;
    Ok(counted(edit, 3))
}

/// The bytes of that edit. None where a number would be too great, or is reserved.
fn last_bytes(
    alloc: Global,
    version: &Version,
    span: &Span,
) -> Result<Option<Vec<u8>>, AllocError> {
    if !has_last_two(version, span) {
        return Ok(None);
    }
    let edit = last_edit(alloc, version, span)?;
    let mut bytes = Vec::new(alloc);
    edit.encode(alloc, &mut bytes)?;
    Ok(Some(bytes))
}

#[test]
fn parts_take_the_last_numbers(rt: HostRuntime) -> Result<(), Fail> {
    let alloc = rt.alloc();
    let tables = [whole(0, 4, b"a", b"e\0")];
    let Some(mut version) = store_of(alloc, 6, &tables)? else {
        panic!(rt; "the store is refused");
    };
    let span = Span::new(alloc, b"b", b"d")?;
    let Some(bytes) = last_bytes(alloc, &version, &span)? else {
        panic!(rt; "the numbers are reserved");
    };
    assert!(rt; reserve(alloc, &mut version, 4_611_686_018_427_387_903)?);
    let Some(edit) = decoded(alloc, bytes.as_slice())? else {
        panic!(rt; "the bytes spell no edit");
    };
    assert!(rt; is_applied(alloc, &mut version, &edit)?);
    let want = [
        part(0, LAST_TWO, 4, b"a", b"b"),
        part(0, 4_611_686_018_427_387_902, 4, b"d", b"e\0"),
    ];
    assert!(rt; agrees(&version, &want));
    Ok(())
}
