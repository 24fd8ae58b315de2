//! The edit that adds tables.
ghost use Rattle.std.specs.Prelude.{◌≡◌, IfOk};
ghost use Rattle.std.specs.List.{list_any};
ghost use Rattle.pb_version.specs.Rules.{are_distinct, is_listed};
ghost use Rattle.pb_ingest.specs.Planned.{numbers_of};

use super::versions::{applied, first_edit, physical, span, version_with};
use pb_edit::Edit;
use pb_ingest::{Written, WrittenTables, plan};
use pb_keys::Span;
use pb_version::Version;
use std::alloc::{AllocError, Global};
use std::test::Fail;

fn is_listed(numbers: &[u64], number: u64) -> bool
    ensures { result ≡ is_listed numbers.now number }
{
    numbers.contains(&number)
}

fn are_distinct(numbers: &[u64]) -> bool
    ensures { result ≡ are_distinct numbers.now }
{
    for (at, number) in numbers.iter().enumerate() {
        if is_listed(&numbers[at + 1..], *number) {
            return false;
        }
    }
    true
}

fn numbers_of(alloc: Global, written: &[Written]) -> Result<Vec<u64>, AllocError>
    ensures { IfOk result (λ numbers. numbers.items ≡ numbers_of written.now) }
{
    let mut numbers = Vec::new(alloc);
    for table in written {
        numbers.push(table.number)?;
    }
    Ok(numbers)
}

/// The edit of a new store with these tables added; None where two have one number.
fn planned(
    alloc: Global,
    version: &Version,
    cut: Option<&Span>,
    written: &WrittenTables,
) -> Result<Option<Edit>, AllocError> {
    let numbers = numbers_of(alloc, written.as_slice())?;
    if !are_distinct(numbers.as_slice()) {
        return Ok(None);
    }
    let edit = plan(alloc, version, cut, written, first_edit(alloc))?;
    Ok(Some(edit))
}

fn written(alloc: Global, number: u64, lo: &[u8], hi: &[u8], level: u8) -> Result<Written, Fail> {
    let hull = span(alloc, lo, hi)?;
    Ok(Written {
        number,
        size: 8,
        hull,
        level,
    })
}

/// A store with a table on level 6, from b to right above it.
fn with_b(alloc: Global) -> Result<Option<Version>, AllocError> {
    let mut items = Vec::new(alloc);
    let item = physical(alloc, 6, 4, b"b", b"b\0")?;
    items.push(item)?;
    version_with(alloc, items)
}

fn four_tables(alloc: Global) -> Result<WrittenTables, Fail> {
    let mut tables = Vec::new(alloc);
    tables.push(written(alloc, 9, b"c", b"d", 6)?)?;
    tables.push(written(alloc, 8, b"a", b"c", 6)?)?;
    tables.push(written(alloc, 7, b"x", b"z", 3)?)?;
    tables.push(written(alloc, 6, b"m", b"n", 6)?)?;
    Ok(WrittenTables::from_vec(tables))
}

/// Whether the edit has a physical table of these in this place.
fn has_at(edit: &Edit, place: usize, level: u8, number: u64, lo: &[u8]) -> bool {
    match edit.physical.get(place) {
        Some(table) => {
            table.level == level
                && table.number == number
                && table.rank == number
                && table.size == 8
                && table.lo.as_slice() == lo
        }
        None => false,
    }
}

#[test]
fn tables_are_planned_by_level_and_number(rt: HostRuntime) -> Result<(), Fail> {
    let alloc = rt.alloc();
    let Some(version) = with_b(alloc)? else {
        return Err(Fail::from("no edit, or a broken one"));
    };
    let tables = four_tables(alloc)?;
    let Some(edit) = planned(alloc, &version, None, &tables)? else {
        return Err(Fail::from("no edit, or a broken one"));
    };
    assert!(rt; has_at(&edit, 0, 3, 7, b"x"));
    assert!(rt; has_at(&edit, 1, 5, 8, b"a"));
    assert!(rt; has_at(&edit, 2, 6, 6, b"m"));
    assert!(rt; has_at(&edit, 3, 6, 9, b"c"));
    assert!(rt; edit.physical.get(4).is_none());
    let Some(after) = applied(alloc, version, &edit)? else {
        return Err(Fail::from("no edit, or a broken one"));
    };
    assert_eq!(rt; after.len(), 5);
    Ok(())
}

#[test]
fn a_cut_frees_the_level(rt: HostRuntime) -> Result<(), Fail> {
    let alloc = rt.alloc();
    let Some(version) = with_b(alloc)? else {
        return Err(Fail::from("no edit, or a broken one"));
    };
    let tables = four_tables(alloc)?;
    let cut = span(alloc, b"a", b"c")?;
    let Some(edit) = planned(alloc, &version, Some(&cut), &tables)? else {
        return Err(Fail::from("no edit, or a broken one"));
    };
    assert!(rt; has_at(&edit, 0, 3, 7, b"x"));
    assert!(rt; has_at(&edit, 1, 6, 6, b"m"));
    assert!(rt; has_at(&edit, 2, 6, 8, b"a"));
    assert!(rt; has_at(&edit, 3, 6, 9, b"c"));
    Ok(())
}

/// Tables of one byte of 64 and another of 64, from the greatest number down.
fn many_tables(alloc: Global) -> Result<WrittenTables, Fail> {
    let mut tables = Vec::new(alloc);
    for at in 0..4096 {
        let first = 65 + at / 64;
        let second = 65 + at % 64;
        let ends = [first as u8, second as u8, 1];
        tables.push(written(alloc, 5000 - at, &ends[..2], &ends, 6)?)?;
    }
    Ok(WrittenTables::from_vec(tables))
}

#[test]
fn memory_is_found_for_4096_tables(rt: HostRuntime) -> Result<(), Fail> {
    let alloc = rt.alloc();
    let tables = many_tables(alloc)?;
    let version = Version::empty(alloc);
    let Some(edit) = planned(alloc, &version, None, &tables)? else {
        return Err(Fail::from("no edit, or a broken one"));
    };
    assert_eq!(rt; edit.physical.as_slice().len(), 4096);
    assert!(rt; has_at(&edit, 0, 6, 905, &[128, 128]));
    assert!(rt; has_at(&edit, 4095, 6, 5000, b"AA"));
    Ok(())
}
