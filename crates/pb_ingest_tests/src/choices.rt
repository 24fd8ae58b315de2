//! The level of a hull: the cases one by one, and all hulls and cuts over five ends beside the plain program.
use super::plain::{Placed, deepest, set_at};
use super::versions::{all_spans, physical, span, version_of, version_with};
use pb_ingest::{first_overlap, level_beside, level_for};
use pb_keys::Span;
use pb_version::Version;
use std::alloc::{AllocError, Global};
use std::test::Fail;

/// The levels of the tables, each with its 10 spans; 30 stands for no table.
const LEVELS: [u8; 3] = [0, 2, 5];

const NONE: usize = 30;

fn placed(choice: usize) -> Option<Placed> {
    let level = *LEVELS.get(choice / 10)?;
    Some(Placed {
        level,
        span: choice % 10,
    })
}

/// What stands, and what it is judged with.
#[derive(Drop)]
struct Judged {
    spans: Vec<Span>,
    tables: Vec<Placed>,
    versions: u64,
}

/// Whether each cut gives the hull the level of the plain program.
fn cuts_agree(version: &Version, tables: &[Placed], spans: &[Span], hull: &Span, set: u8) -> bool {
    for (at, cut) in spans.iter().enumerate() {
        if level_beside(version, Some(cut), hull) != deepest(tables, set_at(at), set) {
            return false;
        }
    }
    true
}

/// Whether each hull gets the level of the plain program, without a cut and with each.
fn hulls_agree(version: &Version, tables: &[Placed], spans: &[Span]) -> bool {
    for (at, hull) in spans.iter().enumerate() {
        let set = set_at(at);
        let whole = deepest(tables, 0, set);
        if level_for(version, hull) != whole {
            return false;
        }
        if !cuts_agree(version, tables, spans, hull, set) {
            return false;
        }
    }
    true
}

/// Whether the version of these tables agrees, where they may stand together.
fn judge(alloc: Global, judged: &mut Judged) -> Result<bool, AllocError> {
    let Some(version) = version_of(alloc, judged.tables.as_slice())? else {
        return Ok(true);
    };
    judged.versions = judged.versions.saturating_add(1);
    Ok(hulls_agree(&version, judged.tables.as_slice(), judged.spans.as_slice()))
}

fn add(judged: &mut Judged, choice: usize) -> Result<(), AllocError> {
    if let Some(table) = placed(choice) {
        judged.tables.push(table)?;
    }
    Ok(())
}

/// The choices behind this one; behind no table comes no table.
fn behind(choice: usize) -> usize {
    if choice < NONE { choice + 1 } else { NONE }
}

fn fourth_agrees(alloc: Global, judged: &mut Judged, from: usize) -> Result<bool, AllocError> {
    for choice in from..NONE + 1 {
        let before = judged.tables.len();
        add(judged, choice)?;
        let agrees = judge(alloc, judged)?;
        judged.tables.truncate(before);
        if !agrees {
            return Ok(false);
        }
    }
    Ok(true)
}

fn third_agrees(alloc: Global, judged: &mut Judged, from: usize) -> Result<bool, AllocError> {
    for choice in from..NONE + 1 {
        let before = judged.tables.len();
        add(judged, choice)?;
        let agrees = fourth_agrees(alloc, judged, behind(choice))?;
        judged.tables.truncate(before);
        if !agrees {
            return Ok(false);
        }
    }
    Ok(true)
}

fn second_agrees(alloc: Global, judged: &mut Judged, from: usize) -> Result<bool, AllocError> {
    for choice in from..NONE + 1 {
        let before = judged.tables.len();
        add(judged, choice)?;
        let agrees = third_agrees(alloc, judged, behind(choice))?;
        judged.tables.truncate(before);
        if !agrees {
            return Ok(false);
        }
    }
    Ok(true)
}

/// Whether all versions agree whose first table is among these choices, and how many there are.
fn first_agrees(alloc: Global, from: usize, to: usize) -> Result<Option<u64>, Fail> {
    let mut judged = Judged {
        spans: all_spans(alloc)?,
        tables: Vec::new(alloc),
        versions: 0,
    };
    for choice in from..to {
        let before = judged.tables.len();
        add(&mut judged, choice)?;
        let agrees = second_agrees(alloc, &mut judged, behind(choice))?;
        judged.tables.truncate(before);
        if !agrees {
            return Ok(None);
        }
    }
    Ok(Some(judged.versions))
}

#[test]
fn levels_are_those_of_the_plain_program(rt: HostRuntime) -> Result<(), Fail> {
    // Fewer than the choices: on a level from 1 on tables don't overlap.
    assert_eq!(rt; first_agrees(rt.alloc(), 6, NONE + 1)?, Some(3_683));
    Ok(())
}

#[test]
fn levels_under_three_spans(rt: HostRuntime) -> Result<(), Fail> {
    assert_eq!(rt; first_agrees(rt.alloc(), 0, 3)?, Some(6_979));
    Ok(())
}

#[test]
fn levels_under_three_more(rt: HostRuntime) -> Result<(), Fail> {
    assert_eq!(rt; first_agrees(rt.alloc(), 3, 6)?, Some(4_345));
    Ok(())
}

/// A version with tables of these levels and ends.
fn version_at(alloc: Global, tables: &[(u8, &str, &str)]) -> Result<Option<Version>, AllocError> {
    let mut items = Vec::new(alloc);
    let mut number: u64 = 4;
    for (level, lo, hi) in tables {
        let item = physical(alloc, *level, number, lo.as_bytes(), hi.as_bytes())?;
        items.push(item)?;
        number = number.saturating_add(1);
    }
    version_with(alloc, items)
}

/// The level of the hull; 7 where the tables can't stand together.
fn level_at(
    alloc: Global,
    tables: &[(u8, &str, &str)],
    cut: Option<(&str, &str)>,
    hull: (&str, &str),
) -> Result<u8, Fail> {
    let Some(version) = version_at(alloc, tables)? else {
        return Ok(7);
    };
    let hull = span(alloc, hull.0.as_bytes(), hull.1.as_bytes())?;
    match cut {
        Some((lo, hi)) => {
            let cut = span(alloc, lo.as_bytes(), hi.as_bytes())?;
            Ok(level_beside(&version, Some(&cut), &hull))
        }
        None => Ok(level_for(&version, &hull)),
    }
}

#[test]
fn a_table_goes_as_deep_as_it_can(rt: HostRuntime) -> Result<(), Fail> {
    let alloc = rt.alloc();
    let at_b: [(u8, &str, &str); 1] = [(6, "b", "b\0")];
    assert_eq!(rt; level_at(alloc, &[], None, ("a", "b"))?, 6);
    assert_eq!(rt; level_at(alloc, &at_b, None, ("a", "c\0"))?, 5);
    assert_eq!(rt; level_at(alloc, &at_b, None, ("c", "d"))?, 6);
    assert_eq!(rt;
        level_at(alloc, &[(0, "a", "c"), (6, "x", "z")], None, ("b", "d"))?,
        0
    );
    assert_eq!(rt; level_at(alloc, &[(1, "a", "c")], None, ("b", "d"))?, 0);
    assert_eq!(rt;
        level_at(alloc, &[(3, "a", "c"), (5, "b", "d")], None, ("b", "d"))?,
        2
    );
    Ok(())
}

#[test]
fn what_the_cut_takes_is_not_in_the_way(rt: HostRuntime) -> Result<(), Fail> {
    let alloc = rt.alloc();
    assert_eq!(rt;
        level_at(alloc, &[(0, "a", "z")], Some(("a", "z")), ("b", "c"))?,
        6
    );
    assert_eq!(rt;
        level_at(alloc, &[(5, "a", "m")], Some(("a", "c")), ("b", "n"))?,
        4
    );
    Ok(())
}

fn pair_of(alloc: Global, hulls: &[(&str, &str)]) -> Result<Option<(usize, usize)>, Fail> {
    let mut spans = Vec::new(alloc);
    for (lo, hi) in hulls {
        let made = span(alloc, lo.as_bytes(), hi.as_bytes())?;
        spans.push(made)?;
    }
    Ok(first_overlap(spans.as_slice()))
}

#[test]
fn the_first_two_that_overlap(rt: HostRuntime) -> Result<(), Fail> {
    let alloc = rt.alloc();
    let found = pair_of(alloc, &[("a", "c\0"), ("c", "c\0")])?;
    assert_eq!(rt; found, Some((0, 1)));
    let found = pair_of(alloc, &[("c", "d"), ("a", "b"), ("a", "c")])?;
    assert_eq!(rt; found, Some((1, 2)));
    let found = pair_of(alloc, &[("b", "c"), ("a", "b")])?;
    assert_eq!(rt; found, None);
    Ok(())
}
