//! Excises of as many tables as a version holds.
use crate::plain::{Placed, whole};
use crate::stores::{cut, excise_bytes, store_of};
use pb_excise::parts;
use pb_keys::Span;
use pb_version::Version;
use std::alloc::{AllocError, Global};
use std::test::Fail;

/// So many tables of level 0 from a to c, numbered from 6 on.
fn many(alloc: Global, count: u64) -> Result<Vec<Placed>, AllocError> {
    let mut tables = Vec::new(alloc);
    for at in 0..count {
        tables.push(whole(0, at.wrapping_add(6), b"a", b"c"))?;
    }
    Ok(tables)
}

fn full(alloc: Global, count: u64) -> Result<Version, Fail> {
    let tables = many(alloc, count)?;
    match store_of(alloc, 4102, tables.as_slice())? {
        Some(version) => Ok(version),
        None => Err(Fail::from("the store is refused")),
    }
}

fn parts_of(alloc: Global, version: &Version, lo: &[u8], hi: &[u8]) -> Result<u64, Fail> {
    let span = Span::new(alloc, lo, hi)?;
    Ok(parts(version, &span))
}

/// Whether an edit is planned that takes the span out.
fn is_planned(alloc: Global, version: &Version, lo: &[u8], hi: &[u8]) -> Result<bool, Fail> {
    let span = Span::new(alloc, lo, hi)?;
    let planned = excise_bytes(alloc, version, &span, 3)?;
    Ok(planned.is_some())
}

#[test]
fn each_of_4096_tables_is_planned_once(rt: HostRuntime) -> Result<(), Fail> {
    let version = full(rt.alloc(), 4096)?;
    assert_eq!(rt; parts_of(rt.alloc(), &version, b"b", b"d")?, 4096);
    assert!(rt; is_planned(rt.alloc(), &version, b"b", b"d")?);
    Ok(())
}

#[test]
fn each_of_4096_tables_is_planned_twice(rt: HostRuntime) -> Result<(), Fail> {
    let version = full(rt.alloc(), 4096)?;
    assert_eq!(rt; parts_of(rt.alloc(), &version, b"aa", b"ab")?, 8192);
    assert!(rt; is_planned(rt.alloc(), &version, b"aa", b"ab")?);
    Ok(())
}

#[test]
fn each_of_1024_tables_is_cut_once(rt: HostRuntime) -> Result<(), Fail> {
    let mut version = full(rt.alloc(), 1024)?;
    assert!(rt; cut(rt.alloc(), &mut version, b"b", b"d")?);
    assert_eq!(rt; version.len(), 1024);
    assert_eq!(rt; version.backing(6), Some(8));
    assert_eq!(rt; version.backing(1029), Some(8));
    Ok(())
}

#[test]
fn cut_inside_1024_tables_leave_two_of_each(rt: HostRuntime) -> Result<(), Fail> {
    let mut version = full(rt.alloc(), 1024)?;
    assert!(rt; cut(rt.alloc(), &mut version, b"aa", b"ab")?);
    assert_eq!(rt; version.len(), 2048);
    assert_eq!(rt; version.backing(6), Some(8));
    Ok(())
}

#[test]
fn none_is_left_of_1024_tables_in_the_span(rt: HostRuntime) -> Result<(), Fail> {
    let mut version = full(rt.alloc(), 1024)?;
    assert!(rt; cut(rt.alloc(), &mut version, b"b", b"d")?);
    assert!(rt; cut(rt.alloc(), &mut version, b"a", b"b")?);
    assert_eq!(rt; version.len(), 0);
    assert_eq!(rt; version.backing(6), None);
    Ok(())
}
