//! Spans taken out of a store, one after another, and the tables and backings that are left.
use crate::plain::{Placed, agrees, part, whole};
use crate::stores::{cut, store_of};
use pb_version::Version;
use std::alloc::{AllocError, Global};
use std::test::Fail;

fn cut_each(
    alloc: Global,
    version: &mut Version,
    cuts: &[(&str, &str)],
) -> Result<bool, AllocError> {
    for (lo, hi) in cuts {
        if !cut(alloc, version, lo.as_bytes(), hi.as_bytes())? {
            return Ok(false);
        }
    }
    Ok(true)
}

/// Whether the spans, taken out one after another, leave these tables and the backings that they show, each as one command.
fn leaves(
    alloc: Global,
    store: Option<Version>,
    cuts: &[(&str, &str)],
    want: &[Placed],
) -> Result<bool, AllocError> {
    let Some(mut version) = store else {
        return Ok(false);
    };
    if !cut_each(alloc, &mut version, cuts)? {
        return Ok(false);
    }
    let commands = version.five().accepted.wrapping_sub(2);
    Ok(commands == cuts.len() as u64 && agrees(&version, want))
}

/// The same of a store after a flush of the table 4 from a to right above e.
fn flushed_leaves(
    alloc: Global,
    cuts: &[(&str, &str)],
    want: &[Placed],
) -> Result<bool, AllocError> {
    let store = store_of(alloc, 6, &[whole(0, 4, b"a", b"e\0")])?;
    let is_left = leaves(alloc, store, cuts, want)?;
    Ok(is_left)
}

#[test]
fn a_span_inside_a_table_leaves_two_parts(rt: HostRuntime) -> Result<(), Fail> {
    let want = [part(0, 6, 4, b"a", b"b"), part(0, 7, 4, b"d", b"e\0")];
    assert!(rt; flushed_leaves(rt.alloc(), &[("b", "d")], &want)?);
    Ok(())
}

#[test]
fn a_table_inside_the_span_goes(rt: HostRuntime) -> Result<(), Fail> {
    assert!(rt; flushed_leaves(rt.alloc(), &[("a", "e\0")], &[])?);
    Ok(())
}

#[test]
fn a_span_that_touches_leaves_a_table_as_it_was(rt: HostRuntime) -> Result<(), Fail> {
    let want = [whole(0, 4, b"a", b"e\0")];
    assert!(rt; flushed_leaves(rt.alloc(), &[("e\0", "z")], &want)?);
    Ok(())
}

#[test]
fn a_span_at_the_front_leaves_one_part(rt: HostRuntime) -> Result<(), Fail> {
    let want = [part(0, 6, 4, b"c", b"e\0")];
    assert!(rt; flushed_leaves(rt.alloc(), &[("a", "c")], &want)?);
    Ok(())
}

const CUTS: [(&str, &str); 5] = [("b", "d"), ("aa", "b"), ("d", "dz"), ("a", "b"), ("d", "f")];

#[test]
fn a_left_part_is_cut_again(rt: HostRuntime) -> Result<(), Fail> {
    let want = [part(0, 8, 4, b"a", b"aa"), part(0, 7, 4, b"d", b"e\0")];
    assert!(rt; flushed_leaves(rt.alloc(), &CUTS[..2], &want)?);
    Ok(())
}

#[test]
fn a_right_part_is_cut_again(rt: HostRuntime) -> Result<(), Fail> {
    let want = [part(0, 8, 4, b"a", b"aa"), part(0, 9, 4, b"dz", b"e\0")];
    assert!(rt; flushed_leaves(rt.alloc(), &CUTS[..3], &want)?);
    Ok(())
}

#[test]
fn the_backing_stays_for_its_last_part(rt: HostRuntime) -> Result<(), Fail> {
    let want = [part(0, 9, 4, b"dz", b"e\0")];
    assert!(rt; flushed_leaves(rt.alloc(), &CUTS[..4], &want)?);
    Ok(())
}

#[test]
fn the_backing_goes_with_its_last_part(rt: HostRuntime) -> Result<(), Fail> {
    assert!(rt; flushed_leaves(rt.alloc(), &CUTS, &[])?);
    Ok(())
}

#[test]
fn parts_of_a_level_are_numbered_in_the_order_of_its_tables(rt: HostRuntime) -> Result<(), Fail> {
    let tables = [whole(0, 4, b"a", b"d\0"), whole(0, 6, b"b", b"c\0")];
    let want = [
        part(0, 8, 6, b"b", b"bb"),
        part(0, 9, 4, b"a", b"bb"),
        part(0, 10, 4, b"cc", b"d\0"),
    ];
    let store = store_of(rt.alloc(), 8, &tables)?;
    assert!(rt; leaves(rt.alloc(), store, &[("bb", "cc")], &want)?);
    Ok(())
}

#[test]
fn parts_are_numbered_over_the_levels(rt: HostRuntime) -> Result<(), Fail> {
    let tables = [whole(1, 8, b"a", b"c\0"), whole(6, 4, b"b", b"e\0")];
    let want = [
        part(1, 10, 8, b"a", b"b"),
        part(1, 11, 8, b"c", b"c\0"),
        part(6, 12, 4, b"c", b"e\0"),
    ];
    let store = store_of(rt.alloc(), 10, &tables)?;
    assert!(rt; leaves(rt.alloc(), store, &[("b", "c")], &want)?);
    Ok(())
}
