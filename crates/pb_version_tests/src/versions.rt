ghost use Rattle.std.specs.Prelude.{◌≡◌, IsTrue, IfSome, All};
ghost use Rattle.pb_edit.specs.Edit.{VersionEdit};
ghost use Rattle.pb_edit.specs.Grammar.{IsPhysical, IsVirtual, IsCreated, Ascend, created_below};
ghost use Rattle.pb_bytes.specs.Number.{IsNumber};
ghost use Rattle.pb_version.specs.State.{IsSpellable};

use pb_bytes::NUMBERS;
use pb_edit::{
    Backings, Created, Deleted, Deletions, Edit, LAST_LEVEL, Numbers, Physical, Physicals, Virtual,
    Virtuals,
};
use pb_keys::{Bytes, Span};
use pb_version::{Broken, Version};
use std::alloc::{AllocError, Global};
use std::test::Fail;

fn is_number(number: Option<u64>) -> bool
    ensures { IsTrue result → IfSome number IsNumber }
{
    match number {
        Some(n) => n < NUMBERS,
        None => true,
    }
}

fn is_physical(p: &Physical) -> bool
    ensures { IsTrue result → IsPhysical p.now }
{
    p.level <= LAST_LEVEL
        && p.number < NUMBERS
        && p.rank < NUMBERS
        && p.size < NUMBERS
        && p.lo.as_slice().len() < 4096
        && p.hi.as_slice().len() < 4096
}

fn is_virtual(v: &Virtual) -> bool
    ensures { IsTrue result → IsVirtual v.now }
{
    v.level <= LAST_LEVEL
        && v.number < NUMBERS
        && v.rank < NUMBERS
        && v.backing < NUMBERS
        && v.lo.as_slice().len() < 4096
        && v.hi.as_slice().len() < 4096
        && v.prefix.as_slice().len() < 4096
        && v.suffix.as_slice().len() < 4096
}

fn are_physical(physical: &[Physical]) -> bool
    ensures { IsTrue result → All IsPhysical physical.now }
{
    match physical {
        [] => true,
        [first, rest @ ..] => is_physical(first) && are_physical(rest),
    }
}

fn are_virtual(virtuals: &[Virtual]) -> bool
    ensures { IsTrue result → All IsVirtual virtuals.now }
{
    match virtuals {
        [] => true,
        [first, rest @ ..] => is_virtual(first) && are_virtual(rest),
    }
}

fn is_created(created: &Created) -> bool
    ensures { IsTrue result → IsCreated created.now }
{
    created.number < NUMBERS && created.size < NUMBERS
}

fn are_created(created: &[Created]) -> bool
    ensures { IsTrue result → All IsCreated created.now }
{
    match created {
        [] => true,
        [first, rest @ ..] => is_created(first) && are_created(rest),
    }
}

#[tactic(auto, using(pb_version::proofs::KeptFacts::short_ascends))]
fn is_short(created: &[Created]) -> bool
    ensures { IsTrue result → Ascend created_below created.now }
{
    created.len() <= 1
}

fn has_numbers(edit: &Edit) -> bool
    ensures { IsTrue result → IfSome edit.now.accepted IsNumber × IfSome edit.now.next IsNumber × IfSome edit.now.log IsNumber × IfSome edit.now.flushed IsNumber × IfSome edit.now.format IsNumber }
{
    is_number(edit.accepted)
        && is_number(edit.next)
        && is_number(edit.log)
        && is_number(edit.flushed)
        && is_number(edit.format)
}

fn is_spellable(edit: &Edit) -> bool
    ensures { IsTrue result → IsSpellable edit.now }
{
    has_numbers(edit)
        && are_physical(edit.physical.as_slice())
        && are_virtual(edit.virtuals.as_slice())
        && are_created(edit.created.as_slice())
        && is_short(edit.created.as_slice())
}

/// What an edit of a test has, in the order of the fields of `Edit`.
#[derive(Drop)]
pub(crate) struct Draft {
    five: [Option<u64>; 5],
    pub(crate) deleted: Vec<Deleted>,
    pub(crate) physical: Vec<Physical>,
    pub(crate) virtuals: Vec<Virtual>,
    pub(crate) created: Vec<Created>,
    pub(crate) removed: Vec<u64>,
}

pub(crate) fn draft_of(alloc: Global, five: [Option<u64>; 5]) -> Draft {
    Draft {
        five,
        deleted: Vec::new(alloc),
        physical: Vec::new(alloc),
        virtuals: Vec::new(alloc),
        created: Vec::new(alloc),
        removed: Vec::new(alloc),
    }
}

pub(crate) const NOTHING: [Option<u64>; 5] = [None; 5];

/// Of a new store.
pub(crate) const FIRST: [Option<u64>; 5] = [Some(0), Some(64), Some(3), Some(0), Some(1)];

fn physical(
    alloc: Global,
    number: u64,
    rank: u64,
    lo: &str,
    hi: &str,
) -> Result<Physical, AllocError> {
    let lo = Bytes::new(alloc, lo.as_bytes())?;
    let hi = Bytes::new(alloc, hi.as_bytes())?;
    Ok(Physical {
        level: 0,
        number,
        rank,
        size: 8,
        lo,
        hi,
    })
}

fn virtual_of(
    alloc: Global,
    number: u64,
    rank: u64,
    backing: u64,
    ends: (&str, &str),
    prefix: &str,
) -> Result<Virtual, AllocError> {
    let lo = Bytes::new(alloc, ends.0.as_bytes())?;
    let hi = Bytes::new(alloc, ends.1.as_bytes())?;
    let prefix = Bytes::new(alloc, prefix.as_bytes())?;
    let suffix = Bytes::new(alloc, b"")?;
    Ok(Virtual {
        level: 0,
        number,
        rank,
        backing,
        lo,
        hi,
        prefix,
        suffix,
    })
}

fn edit_of(draft: Draft) -> Edit {
    let five = draft.five;
    Edit {
        accepted: five[0],
        next: five[1],
        log: five[2],
        flushed: five[3],
        format: five[4],
        deleted: Deletions::from_vec(draft.deleted),
        physical: Physicals::from_vec(draft.physical),
        virtuals: Virtuals::from_vec(draft.virtuals),
        created: Backings::from_vec(draft.created),
        removed: Numbers::from_vec(draft.removed),
    }
}

/// The rule that the edit breaks; 0 for none, 10 for want of memory, 11 for an edit that can't be spelled.
pub(crate) fn broken(alloc: Global, version: &mut Version, draft: Draft) -> u8 {
    let edit = edit_of(draft);
    if !is_spellable(&edit) {
        return 11;
    }
    match version.apply(alloc, &edit) {
        Ok(()) => 0,
        Err(Broken::V1) => 1,
        Err(Broken::V2) => 2,
        Err(Broken::V3) => 3,
        Err(Broken::V4) => 4,
        Err(Broken::V5) => 5,
        Err(Broken::V6) => 6,
        Err(Broken::V7) => 7,
        Err(Broken::V8) => 8,
        Err(Broken::V9) => 9,
        Err(Broken::NoMemory) => 10,
    }
}

fn with_table(alloc: Global, number: u64, rank: u64, lo: &str, hi: &str) -> Result<Draft, Fail> {
    let mut edit = draft_of(alloc, NOTHING);
    let table = physical(alloc, number, rank, lo, hi)?;
    edit.physical.push(table)?;
    Ok(edit)
}

/// A store with the tables 4, from a to c, and 5, from c to e.
fn two_tables(alloc: Global) -> Result<Version, Fail> {
    let mut version = Version::empty(alloc);
    let _first = broken(alloc, &mut version, draft_of(alloc, FIRST));
    let edit = with_table(alloc, 4, 4, "a", "c")?;
    let _second = broken(alloc, &mut version, edit);
    let edit = with_table(alloc, 5, 5, "c", "e")?;
    let _third = broken(alloc, &mut version, edit);
    Ok(version)
}

fn without_table(alloc: Global, number: u64) -> Result<Draft, Fail> {
    let mut edit = draft_of(alloc, NOTHING);
    edit.deleted.push(Deleted { level: 0, number })?;
    Ok(edit)
}

/// The table 4 becomes a backing of this number and size, which the table 6 shows.
fn carve(alloc: Global, number: u64, size: u64, prefix: &str) -> Result<Draft, Fail> {
    let mut edit = without_table(alloc, 4)?;
    edit.created.push(Created { number, size })?;
    let part = virtual_of(alloc, 6, 4, number, ("a", "b"), prefix)?;
    edit.virtuals.push(part)?;
    Ok(edit)
}

fn number_at(version: &Version, place: usize) -> Option<u64> {
    let table = version.tables(0).get(place)?;
    Some(table.number)
}

fn size_at(version: &Version, place: usize) -> Option<u64> {
    let table = version.tables(0).get(place)?;
    Some(table.size)
}

#[test]
fn tables_stand_by_falling_rank(rt: HostRuntime) -> Result<(), Fail> {
    let version = two_tables(rt.alloc())?;
    assert_eq!(rt; version.tables(0).len(), 2);
    assert_eq!(rt; number_at(&version, 0), Some(5));
    assert_eq!(rt; number_at(&version, 1), Some(4));
    assert_eq!(rt; version.tables(1).len(), 0);
    let five = version.five();
    assert_eq!(rt; five.next, 64);
    assert_eq!(rt; version.backing(4), None);
    let copy = version.copy(rt.alloc())?;
    assert_eq!(rt; copy.tables(0).len(), 2);
    let copied = copy.five();
    assert_eq!(rt; copied.log, 3);
    Ok(())
}

#[test]
fn spans_that_touch_do_not_overlap(rt: HostRuntime) -> Result<(), Fail> {
    let version = two_tables(rt.alloc())?;
    for (lo, hi, want) in [
        ("A", "a", false),
        ("A", "b", true),
        ("d", "e", true),
        ("e", "f", false),
    ] {
        let span = Span::new(rt.alloc(), lo.as_bytes(), hi.as_bytes())?;
        assert_eq!(rt; version.overlaps(0, &span), want, "{lo} to {hi}");
        assert_eq!(rt; version.overlaps(6, &span), false);
    }
    Ok(())
}

#[test]
fn rules_on_tables(rt: HostRuntime) -> Result<(), Fail> {
    let alloc = rt.alloc();
    let mut version = two_tables(alloc)?;
    let edit = without_table(alloc, 6)?;
    assert_eq!(rt; broken(alloc, &mut version, edit), 1);
    // The number of a table, a number and a rank that aren't reserved, and the greatest reserved ones.
    for (number, rank, want) in [(5, 6, 2), (64, 6, 2), (6, 64, 2), (63, 63, 0)] {
        let edit = with_table(alloc, number, rank, "a", "b")?;
        assert_eq!(rt; broken(alloc, &mut version, edit), want, "{number} {rank}");
    }
    for (lo, hi, want) in [("b", "b", 3), ("", "b", 3), ("a@", "b", 3), ("e", "f", 0)] {
        let edit = with_table(alloc, 10, 10, lo, hi)?;
        assert_eq!(rt; broken(alloc, &mut version, edit), want, "{lo} to {hi}");
    }
    // The rank of a table that overlaps, and of one that touches.
    let edit = with_table(alloc, 11, 5, "d", "f")?;
    assert_eq!(rt; broken(alloc, &mut version, edit), 4);
    let edit = with_table(alloc, 11, 5, "b", "c")?;
    assert_eq!(rt; broken(alloc, &mut version, edit), 0);
    // A table in the place of one that goes.
    let mut edit = with_table(alloc, 12, 5, "c", "e")?;
    edit.deleted.push(Deleted {
        level: 0,
        number: 5,
    })?;
    assert_eq!(rt; broken(alloc, &mut version, edit), 0);
    assert_eq!(rt; version.tables(0).len(), 5);
    Ok(())
}

#[test]
fn rules_on_backings(rt: HostRuntime) -> Result<(), Fail> {
    let alloc = rt.alloc();
    let mut version = two_tables(alloc)?;
    // A prefix, another size, and the number of a table that stays.
    for (number, size, prefix, want) in [
        (4, 8, "p", 3),
        (4, 9, "", 5),
        (5, 8, "", 5),
        (64, 8, "", 5),
        (4, 8, "", 0),
    ] {
        let edit = carve(alloc, number, size, prefix)?;
        assert_eq!(rt;
            broken(alloc, &mut version, edit),
            want,
            "{number} {size} {prefix}"
        );
    }
    assert_eq!(rt; version.backing(4), Some(8));
    assert_eq!(rt; size_at(&version, 1), Some(8));
    // A virtual table of no backing.
    let mut edit = draft_of(alloc, NOTHING);
    let part = virtual_of(alloc, 7, 7, 9, ("a", "b"), "")?;
    edit.virtuals.push(part)?;
    assert_eq!(rt; broken(alloc, &mut version, edit), 6);
    // The backing goes without its table, the table without its backing, both together.
    let mut edit = draft_of(alloc, NOTHING);
    edit.removed.push(4)?;
    assert_eq!(rt; broken(alloc, &mut version, edit), 6);
    let edit = without_table(alloc, 6)?;
    assert_eq!(rt; broken(alloc, &mut version, edit), 7);
    let mut edit = without_table(alloc, 6)?;
    edit.removed.push(4)?;
    edit.removed.push(5)?;
    assert_eq!(rt; broken(alloc, &mut version, edit), 7);
    let mut edit = without_table(alloc, 6)?;
    edit.removed.push(4)?;
    assert_eq!(rt; broken(alloc, &mut version, edit), 0);
    assert_eq!(rt; version.backing(4), None);
    assert_eq!(rt; version.tables(0).len(), 1);
    Ok(())
}

#[test]
fn rules_on_numbers(rt: HostRuntime) -> Result<(), Fail> {
    let alloc = rt.alloc();
    let mut version = Version::empty(alloc);
    let without_log = [Some(0), Some(64), None, Some(0), Some(1)];
    assert_eq!(rt;
        broken(alloc, &mut version, draft_of(alloc, without_log)),
        8
    );
    let two = [Some(0), Some(64), Some(3), Some(0), Some(2)];
    assert_eq!(rt; broken(alloc, &mut version, draft_of(alloc, two)), 8);
    let first = [Some(5), Some(64), Some(3), Some(2), Some(1)];
    assert_eq!(rt; broken(alloc, &mut version, draft_of(alloc, first)), 0);
    for (five, want) in [
        ([Some(4), None, None, None, None], 8),
        ([Some(5), None, None, None, None], 0),
        ([None, Some(63), None, None, None], 8),
        ([None, Some(128), None, None, None], 0),
        ([None, None, Some(128), None, None], 8),
        ([None, None, Some(127), None, None], 0),
        ([None, None, None, Some(1), None], 8),
        ([None, None, None, Some(6), None], 8),
        ([None, None, None, Some(5), None], 0),
        ([None, None, None, None, Some(2)], 8),
        ([None, None, None, None, Some(1)], 0),
    ] {
        assert_eq!(rt; broken(alloc, &mut version, draft_of(alloc, five)), want);
    }
    let five = version.five();
    assert_eq!(rt; five.flushed, 5);
    assert_eq!(rt; five.log, 127);
    Ok(())
}

#[test]
fn the_first_rule_is_told(rt: HostRuntime) -> Result<(), Fail> {
    let alloc = rt.alloc();
    let mut version = two_tables(alloc)?;
    // It breaks V1, V2, V3, V5, V6 and V8; without the first, the second is told.
    let mut edit = with_table(alloc, 4, 64, "b", "a")?;
    edit.five = [None, None, Some(64), None, None];
    edit.deleted.push(Deleted {
        level: 0,
        number: 9,
    })?;
    edit.created.push(Created {
        number: 99,
        size: 1,
    })?;
    assert_eq!(rt; broken(alloc, &mut version, edit), 1);
    let mut edit = with_table(alloc, 4, 64, "b", "a")?;
    edit.five = [None, None, Some(64), None, None];
    edit.created.push(Created {
        number: 99,
        size: 1,
    })?;
    assert_eq!(rt; broken(alloc, &mut version, edit), 2);
    let mut edit = with_table(alloc, 6, 6, "b", "a")?;
    edit.five = [None, None, Some(64), None, None];
    edit.created.push(Created {
        number: 99,
        size: 1,
    })?;
    assert_eq!(rt; broken(alloc, &mut version, edit), 3);
    let mut edit = with_table(alloc, 6, 6, "a", "b")?;
    edit.five = [None, None, Some(64), None, None];
    edit.created.push(Created {
        number: 99,
        size: 1,
    })?;
    assert_eq!(rt; broken(alloc, &mut version, edit), 5);
    assert_eq!(rt; version.tables(0).len(), 2);
    let five = version.five();
    assert_eq!(rt; five.log, 3);
    Ok(())
}

#[test]
fn a_snapshot_folds_back(rt: HostRuntime) -> Result<(), Fail> {
    let alloc = rt.alloc();
    let mut version = two_tables(alloc)?;
    let edit = carve(alloc, 4, 8, "")?;
    assert_eq!(rt; broken(alloc, &mut version, edit), 0);
    let snapshot = version.snapshot(alloc)?;
    let mut again = Version::empty(alloc);
    // That it can be applied is proved.
    assert!(rt; again.apply(alloc, &snapshot).is_ok());
    assert_eq!(rt; again.tables(0).len(), 2);
    assert_eq!(rt; number_at(&again, 0), Some(5));
    assert_eq!(rt; number_at(&again, 1), Some(6));
    assert_eq!(rt; size_at(&again, 1), Some(8));
    assert_eq!(rt; again.backing(4), Some(8));
    assert_eq!(rt; again.five(), version.five());
    Ok(())
}
