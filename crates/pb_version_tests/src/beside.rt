//! Versions beside the plain program: the cases of seven levels, of backings and of limits.
use super::plain::{Placed, Plain, Plan, new_plain, new_plan};
use super::versions::{Draft, FIRST, NOTHING, broken, draft_of};
use pb_edit::{Created, Deleted, Physical, Virtual};
use pb_keys::{Bytes, Key};
use pb_version::{Table, Version};
use std::alloc::{AllocError, Global};
use std::process::Abort;
use std::test::Fail;

/// A version, and what the plain program keeps beside it.
#[derive(Drop)]
pub(crate) struct Both {
    pub(crate) version: Version,
    pub(crate) plain: Plain,
}

pub(crate) fn new_both(alloc: Global) -> Both {
    Both {
        version: Version::empty(alloc),
        plain: new_plain(alloc),
    }
}

fn physical_of(alloc: Global, table: &Placed) -> Result<Physical, AllocError> {
    let lo = Bytes::new(alloc, &[table.lo])?;
    let hi = Bytes::new(alloc, &[table.hi])?;
    Ok(Physical {
        level: table.level,
        number: table.number,
        rank: table.rank,
        size: table.size,
        lo,
        hi,
    })
}

fn virtual_of(alloc: Global, table: &Placed) -> Result<Virtual, AllocError> {
    let lo = Bytes::new(alloc, &[table.lo])?;
    let hi = Bytes::new(alloc, &[table.hi])?;
    let prefix = Bytes::new(alloc, if table.has_prefix { b"p" } else { b"" })?;
    let suffix = Bytes::new(alloc, b"")?;
    Ok(Virtual {
        level: table.level,
        number: table.number,
        rank: table.rank,
        backing: table.backing,
        lo,
        hi,
        prefix,
        suffix,
    })
}

fn add_tables(alloc: Global, draft: &mut Draft, tables: &[Placed]) -> Result<(), AllocError> {
    for table in tables {
        if table.is_virtual {
            draft.virtuals.push(virtual_of(alloc, table)?)?;
        } else {
            draft.physical.push(physical_of(alloc, table)?)?;
        }
    }
    Ok(())
}

/// The edit that the plan means.
fn draft_of_plan(alloc: Global, plan: &Plan) -> Result<Draft, AllocError> {
    let mut draft = draft_of(alloc, plan.five);
    add_tables(alloc, &mut draft, plan.added.as_slice())?;
    for (level, number) in &plan.deleted {
        draft.deleted.push(Deleted {
            level: *level,
            number: *number,
        })?;
    }
    for (number, size) in &plan.created {
        draft.created.push(Created {
            number: *number,
            size: *size,
        })?;
    }
    for number in &plan.removed {
        draft.removed.push(*number)?;
    }
    Ok(draft)
}

fn is_same(table: &Table, placed: &Placed) -> bool {
    let view = &table.view;
    table.number == placed.number
        && table.rank == placed.rank
        && table.backing == placed.backing
        && table.size == placed.size
        && table.is_virtual == placed.is_virtual
        && view.bounds.lo() == [placed.lo].as_slice()
        && view.bounds.hi() == [placed.hi].as_slice()
        && view.prefix.as_slice().is_empty()
        && view.suffix.as_slice().is_empty()
}

fn stands(version: &Version, placed: &Placed) -> bool {
    version
        .tables(placed.level)
        .iter()
        .any(|table| is_same(table, placed))
}

fn has_tables(version: &Version, tables: &[Placed]) -> bool {
    tables.iter().all(|placed| stands(version, placed))
}

/// The number of the first table, level by level, whose bounds hold the key.
fn first_over(version: &Version, key: &Key) -> Option<u64> {
    for level in 0..7u8 {
        for table in version.tables(level) {
            if table.view.bounds.contains(key) {
                return Some(table.number);
            }
        }
    }
    None
}

fn same_backings(both: &Both) -> bool {
    (0..both.plain.five[1]).all(|n| both.version.backing(n) == both.plain.size_of(n))
}

fn numbers_of(version: &Version) -> [u64; 5] {
    let five = version.five();
    [
        five.accepted,
        five.next,
        five.log,
        five.flushed,
        five.format,
    ]
}

/// That the version has the tables, backings and numbers of the plain program and no more, the newest over each key first.
pub(crate) fn compare(rt: &impl Abort, alloc: Global, both: &Both) -> Result<(), Fail> {
    let (version, plain) = (&both.version, &both.plain);
    assert_eq!(rt; version.len(), plain.tables.len());
    assert!(rt; has_tables(version, plain.tables.as_slice()));
    assert!(rt; same_backings(both));
    assert_eq!(rt; numbers_of(version), plain.five);
    for byte in b"acfk" {
        let key = Key::new(alloc, &[*byte])?;
        assert_eq!(rt;
            first_over(version, &key),
            plain.newest_over(*byte),
            "over {byte}"
        );
    }
    Ok(())
}

/// Applies the plan on both sides. The first rule that it breaks, or 0.
pub(crate) fn apply(
    rt: &impl Abort,
    alloc: Global,
    both: &mut Both,
    plan: &Plan,
) -> Result<u8, Fail> {
    let edit = draft_of_plan(alloc, plan)?;
    let told = broken(alloc, &mut both.version, edit);
    let wanted = both.plain.apply(alloc, plan)?;
    assert_eq!(rt; told, wanted, "the rule that is broken");
    compare(rt, alloc, both)?;
    Ok(told)
}

/// That the version's snapshot makes the same version of the empty one.
pub(crate) fn compare_again(rt: &impl Abort, alloc: Global, both: &mut Both) -> Result<(), Fail> {
    let snapshot = both.version.snapshot(alloc)?;
    let mut again = Version::empty(alloc);
    assert!(rt; again.apply(alloc, &snapshot).is_ok());
    both.version = again;
    compare(rt, alloc, both)
}

/// A physical table of 8 bytes, whose rank is its number.
pub(crate) fn table(level: u8, number: u64, lo: u8, hi: u8) -> Placed {
    Placed {
        level,
        number,
        rank: number,
        backing: number,
        size: 8,
        lo,
        hi,
        is_virtual: false,
        has_prefix: false,
    }
}

/// A virtual table that shows a part of what the table shows.
pub(crate) fn part(of: &Placed, number: u64, lo: u8, hi: u8) -> Placed {
    Placed {
        number,
        lo,
        hi,
        is_virtual: true,
        ..*of
    }
}

fn adding(alloc: Global, tables: &[Placed]) -> Result<Plan, AllocError> {
    let mut plan = new_plan(alloc, NOTHING);
    plan.added.extend_from_slice(tables)?;
    Ok(plan)
}

fn deleting(alloc: Global, level: u8, number: u64) -> Result<Plan, AllocError> {
    let mut plan = new_plan(alloc, NOTHING);
    plan.deleted.push((level, number))?;
    Ok(plan)
}

/// A new store with these tables.
fn store(rt: &impl Abort, alloc: Global, tables: &[Placed]) -> Result<Both, Fail> {
    let mut both = new_both(alloc);
    let mut plan = new_plan(alloc, FIRST);
    plan.added.extend_from_slice(tables)?;
    assert_eq!(rt; apply(rt, alloc, &mut both, &plan)?, 0);
    Ok(both)
}

#[test]
fn tables_of_a_deeper_level_do_not_overlap(rt: HostRuntime) -> Result<(), Fail> {
    let alloc = rt.alloc();
    let mut both = store(&rt, alloc, &[table(1, 4, b'a', b'c')])?;
    for (level, number, lo, hi, want) in [
        (1, 5, b'c', b'e', 0),
        (1, 6, b'b', b'd', 4),
        (0, 7, b'a', b'c', 0),
        (0, 8, b'c', b'e', 0),
        (0, 9, b'b', b'd', 0),
        (6, 10, b'b', b'd', 0),
        (6, 11, b'd', b'e', 0),
        (6, 12, b'c', b'e', 4),
    ] {
        let plan = adding(alloc, &[table(level, number, lo, hi)])?;
        let told = apply(&rt, alloc, &mut both, &plan)?;
        assert_eq!(rt; told, want, "{number} on level {level}");
    }
    Ok(())
}

#[test]
fn a_table_goes_from_its_own_level(rt: HostRuntime) -> Result<(), Fail> {
    let alloc = rt.alloc();
    let tables = [table(0, 4, b'a', b'c'), table(5, 5, b'a', b'c')];
    let mut both = store(&rt, alloc, &tables)?;
    // It stands on another level; and a number that is in use there.
    let plan = deleting(alloc, 1, 4)?;
    assert_eq!(rt; apply(&rt, alloc, &mut both, &plan)?, 1);
    let plan = adding(alloc, &[table(2, 5, b'x', b'y')])?;
    assert_eq!(rt; apply(&rt, alloc, &mut both, &plan)?, 2);
    // It goes, and its span comes a level deeper, in one edit.
    let mut plan = deleting(alloc, 0, 4)?;
    plan.added.push(table(1, 8, b'a', b'c'))?;
    assert_eq!(rt; apply(&rt, alloc, &mut both, &plan)?, 0);
    assert_eq!(rt; both.version.tables(1).len(), 1);
    assert_eq!(rt; both.version.tables(7).len(), 0);
    Ok(())
}

#[test]
fn the_least_level_says_what_a_key_has(rt: HostRuntime) -> Result<(), Fail> {
    let alloc = rt.alloc();
    let tables = [
        table(6, 6, b'a', b'c'),
        table(1, 5, b'a', b'c'),
        table(0, 4, b'a', b'c'),
    ];
    let mut both = store(&rt, alloc, &tables)?;
    for (level, number) in [(0, 4), (1, 5), (6, 6)] {
        let key = Key::new(alloc, b"a")?;
        assert_eq!(rt; first_over(&both.version, &key), Some(number));
        let plan = deleting(alloc, level, number)?;
        assert_eq!(rt; apply(&rt, alloc, &mut both, &plan)?, 0);
    }
    assert_eq!(rt; both.version.len(), 0);
    Ok(())
}

/// The table becomes a backing, which two tables of its level show.
fn carve(alloc: Global, of: &Placed, first: u64) -> Result<Plan, AllocError> {
    let mut plan = deleting(alloc, of.level, of.number)?;
    plan.created.push((of.number, of.size))?;
    plan.added.push(part(of, first, b'a', b'b'))?;
    plan.added
        .push(part(of, first.wrapping_add(1), b'b', b'c'))?;
    Ok(plan)
}

#[test]
fn a_version_of_seven_levels_folds_back(rt: HostRuntime) -> Result<(), Fail> {
    let alloc = rt.alloc();
    let mut tables = Vec::new(alloc);
    for level in 0..7u8 {
        tables.push(table(level, 10 + u64::from(level), b'a', b'c'))?;
    }
    let mut both = store(&rt, alloc, tables.as_slice())?;
    let plan = carve(alloc, &table(3, 13, b'a', b'c'), 20)?;
    assert_eq!(rt; apply(&rt, alloc, &mut both, &plan)?, 0);
    assert_eq!(rt; both.version.backing(13), Some(8));
    let plan = carve(alloc, &table(0, 10, b'a', b'c'), 22)?;
    assert_eq!(rt; apply(&rt, alloc, &mut both, &plan)?, 0);
    compare_again(&rt, alloc, &mut both)
}

/// A store with 4,095 tables, those by the numbers from 4 on, on level 0 but for the last, which is on level 6. The plain program
/// takes them as they are.
fn nearly_full(rt: &impl Abort, alloc: Global) -> Result<Both, Fail> {
    let mut version = Version::empty(alloc);
    let mut plan = new_plan(alloc, [Some(0), Some(5000), Some(3), Some(0), Some(1)]);
    for number in 4..4098 {
        plan.added.push(table(0, number, b'a', b'b'))?;
    }
    plan.added.push(table(6, 4098, b'a', b'b'))?;
    let edit = draft_of_plan(alloc, &plan)?;
    assert_eq!(rt; broken(alloc, &mut version, edit), 0);
    let mut plain = new_plain(alloc);
    plain.tables = plan.added;
    plain.five = [0, 5000, 3, 0, 1];
    Ok(Both { version, plain })
}

#[test]
fn a_flush_needs_a_place(rt: HostRuntime) -> Result<(), Fail> {
    let alloc = rt.alloc();
    let mut both = nearly_full(&rt, alloc)?;
    for (number, want) in [(4099, 0), (4100, 9)] {
        let mut plan = new_plan(alloc, [Some(2), None, Some(4101), Some(2), None]);
        plan.added.push(table(0, number, b'a', b'b'))?;
        let told = apply(&rt, alloc, &mut both, &plan)?;
        assert_eq!(rt; told, want, "{number}");
    }
    Ok(())
}

#[test]
fn at_most_4096_tables(rt: HostRuntime) -> Result<(), Fail> {
    let alloc = rt.alloc();
    let mut both = nearly_full(&rt, alloc)?;
    let plan = adding(alloc, &[table(3, 4099, b'a', b'b')])?;
    assert_eq!(rt; apply(&rt, alloc, &mut both, &plan)?, 0);
    let mut plan = adding(alloc, &[table(3, 4100, b'b', b'c')])?;
    assert_eq!(rt; apply(&rt, alloc, &mut both, &plan)?, 9);
    // One more and one less.
    plan.deleted.push((6, 4098))?;
    assert_eq!(rt; apply(&rt, alloc, &mut both, &plan)?, 0);
    assert_eq!(rt; both.version.len(), 4096);
    Ok(())
}
