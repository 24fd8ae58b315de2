ghost use Rattle.std.specs.Prelude.{◌≤◌, length};
ghost use Rattle.pb_wal.specs.Changes.{HasShortValue};

use pb_keys::{Bytes, Key, Span};
use pb_memtable::{Memtable, laws};
use pb_rows::Found;
use pb_wal::{Change, Entry};
use std::alloc::Global;
use std::process::Abort;
use std::test::Fail;

const ENDS: [&[u8]; 5] = [b"a", b"b", b"c", b"d", b"e"];

const KEYS: [&[u8]; 5] = [b"a", b"b", b"b@1", b"c@2", b"d"];
// The part between two ends in which a key lies.
const PARTS: [usize; 5] = [0, 1, 1, 2, 3];

// What commands leave, plainly: of each key nothing (0), that it is deleted (1), or a value (2 and its length); and the parts
// that are deleted.
#[derive(Clone, Copy)]
struct Plain {
    keys: [u64; 5],
    parts: [bool; 4],
    size: u64,
}

fn reserve_and_add(alloc: Global, memtable: &mut Memtable, change: Change) -> Result<(), Fail>
    requires { HasShortValue change }
{
    let entry = Entry { count: 1, change };
    // The size of what is held is asked before more is taken.
    if memtable.size() <= 1 << 62 {
        memtable.reserve(alloc, &entry)?;
        memtable.add(entry);
    }
    Ok(())
}

fn set(alloc: Global, memtable: &mut Memtable, key: &[u8], value: &[u8]) -> Result<(), Fail>
    requires { length value.now ≤ 65536 }
{
    let key = Key::new(alloc, key)?;
    let value = Bytes::new(alloc, value)?;
    reserve_and_add(alloc, memtable, Change::Set(key, value))
}

fn del(alloc: Global, memtable: &mut Memtable, key: &[u8]) -> Result<(), Fail> {
    let key = Key::new(alloc, key)?;
    reserve_and_add(alloc, memtable, Change::Del(key))
}

fn del_range(alloc: Global, memtable: &mut Memtable, lo: &[u8], hi: &[u8]) -> Result<(), Fail> {
    let span = Span::new(alloc, lo, hi)?;
    reserve_and_add(alloc, memtable, Change::DelRange(span))
}

// One command of the kind that the number names, on both.
fn step(
    alloc: Global,
    memtable: &mut Memtable,
    plain: &mut Plain,
    pick: usize,
) -> Result<(), Fail> {
    let at = pick / 8 % 5;
    match pick % 4 {
        0 => {
            let lo = pick / 8 % 4;
            let hi = if pick / 32 % 2 == 0 { lo + 1 } else { 4 };
            del_range(alloc, memtable, ENDS[lo], ENDS[hi])?;
            cover(plain, lo, hi);
        }
        1 => {
            del(alloc, memtable, KEYS[at])?;
            plain.keys[at] = 1;
            plain.size = plain.size.wrapping_add(KEYS[at].len() as u64);
        }
        _ => {
            let value = &b"value"[..pick / 64 % 6];
            set(alloc, memtable, KEYS[at], value)?;
            plain.keys[at] = 2 + value.len() as u64;
            plain.size = plain
                .size
                .wrapping_add((KEYS[at].len() + value.len()) as u64);
        }
    }
    Ok(())
}

fn cover(plain: &mut Plain, lo: usize, hi: usize) {
    for part in 0..4 {
        if lo <= part && part < hi {
            plain.parts[part] = true;
        }
    }
    for at in 0..5 {
        if lo <= PARTS[at] && PARTS[at] < hi {
            plain.keys[at] = 0;
        }
    }
    plain.size = plain.size.wrapping_add(2);
}

// What is found, in the numbers of the plain program.
fn number_of(found: Found) -> u64 {
    match found {
        Found::Absent => 0,
        Found::Deleted => 1,
        Found::Value(bytes) => (bytes.len() as u64).saturating_add(2),
    }
}

fn compare(rt: &impl Abort, alloc: Global, memtable: &Memtable, plain: &Plain) -> Result<(), Fail> {
    let layer = memtable.layer(alloc)?;
    let copy = memtable.copy(alloc)?;
    for at in 0..5 {
        let key = Key::new(alloc, KEYS[at])?;
        let mut wanted = plain.keys[at];
        if wanted == 0 && plain.parts[PARTS[at] % 4] {
            wanted = 1;
        }
        assert_eq!(rt; number_of(memtable.get(&key)), wanted, "key {at}");
        assert_eq!(rt; number_of(layer.get(&key)), wanted, "key {at} in the layer");
        assert_eq!(rt; number_of(copy.get(&key)), wanted, "key {at} in the copy");
    }
    let rows = plain.keys.iter().filter(|number| **number != 0).count();
    assert_eq!(rt; layer.rows().len(), rows);
    assert_eq!(rt; memtable.size(), plain.size);
    assert_eq!(rt; copy.size(), plain.size);
    for part in 0..4 {
        compare_within(rt, alloc, memtable, plain, part)?;
    }
    compare_overlaps(rt, alloc, memtable, &copy, plain)
}

// Whether a part of those from one to before another is deleted or has a key.
fn has_between(plain: &Plain, lo: usize, hi: usize) -> bool {
    let is_deleted = (0..4).any(|part| lo <= part && part < hi && plain.parts[part % 4]);
    is_deleted || has_key_between(plain, lo, hi)
}

fn has_key_between(plain: &Plain, lo: usize, hi: usize) -> bool {
    (0..5).any(|at| lo <= PARTS[at % 5] && PARTS[at % 5] < hi && plain.keys[at % 5] != 0)
}

// Over each span between two of the five ends.
fn compare_overlaps(
    rt: &impl Abort,
    alloc: Global,
    memtable: &Memtable,
    copy: &Memtable,
    plain: &Plain,
) -> Result<(), Fail> {
    for lo in 0..4 {
        for hi in lo + 1..5 {
            let span = Span::new(alloc, ENDS[lo % 5], ENDS[hi % 5])?;
            let wanted = has_between(plain, lo, hi);
            assert_eq!(rt; memtable.overlaps(&span), wanted, "parts {lo} to {hi}");
            assert_eq!(rt;
                copy.overlaps(&span),
                wanted,
                "parts {lo} to {hi} of the copy"
            );
        }
    }
    Ok(())
}

// What the memtable has within a part, and that it has nothing of the others there.
fn compare_within(
    rt: &impl Abort,
    alloc: Global,
    memtable: &Memtable,
    plain: &Plain,
    part: usize,
) -> Result<(), Fail> {
    let span = Span::new(alloc, ENDS[part % 4], ENDS[part % 4 + 1])?;
    let layer = memtable.layer_within(alloc, &span)?;
    let mut rows = 0u64;
    for at in 0..5 {
        let key = Key::new(alloc, KEYS[at])?;
        let mut wanted = 0;
        if PARTS[at] == part {
            wanted = number_of(memtable.get(&key));
            rows = rows.saturating_add((plain.keys[at] != 0) as u64);
        }
        assert_eq!(rt;
            number_of(layer.get(&key)),
            wanted,
            "key {at} within part {part}"
        );
    }
    assert_eq!(rt; layer.rows().len() as u64, rows, "rows within part {part}");
    assert_eq!(rt;
        !layer.dels().is_empty(),
        plain.parts[part % 4],
        "deletions within part {part}"
    );
    Ok(())
}

#[test]
fn commands_leave_what_a_plain_program_leaves(rt: HostRuntime) -> Result<(), Fail> {
    let alloc = rt.alloc();
    let mut seed = 1u64;
    for _round in 0..40u64 {
        let mut memtable = Memtable::new(alloc);
        let mut plain = Plain {
            keys: [0; 5],
            parts: [false; 4],
            size: 0,
        };
        for _step in 0..12u64 {
            seed = seed.wrapping_mul(6_364_136_223_846_793_005).wrapping_add(1);
            step(alloc, &mut memtable, &mut plain, (seed >> 40) as usize)?;
            compare(&rt, alloc, &memtable, &plain)?;
        }
    }
    Ok(())
}

#[test]
fn a_command_of_any_kind_fills_it(rt: HostRuntime) -> Result<(), Fail> {
    let alloc = rt.alloc();
    let mut memtable = Memtable::new(alloc);
    assert!(rt; memtable.is_empty());
    assert!(rt; memtable.layer(alloc)?.hull(alloc)?.is_none());
    del(alloc, &mut memtable, b"a")?;
    assert!(rt; !memtable.is_empty());
    assert!(rt; memtable.layer(alloc)?.hull(alloc)?.is_some());
    let mut other = Memtable::new(alloc);
    del_range(alloc, &mut other, b"a", b"b")?;
    assert!(rt; !other.is_empty());
    assert!(rt; other.layer(alloc)?.hull(alloc)?.is_some());
    Ok(())
}

#[test]
fn a_set_after_a_delrange_is_found(rt: HostRuntime) -> Result<(), Fail> {
    let alloc = rt.alloc();
    let mut memtable = Memtable::new(alloc);
    set(alloc, &mut memtable, b"b@1", b"old")?;
    del_range(alloc, &mut memtable, b"a", b"c")?;
    set(alloc, &mut memtable, b"b@1", b"new")?;
    let key = Key::new(alloc, b"b@1")?;
    assert!(rt; memtable.get(&key) == Found::Value(b"new".as_slice()));
    let other = Key::new(alloc, b"b@2")?;
    assert!(rt; memtable.get(&other) == Found::Deleted);
    assert_eq!(rt; memtable.size(), 14);
    Ok(())
}

#[test]
fn a_span_between_two_rows_overlaps_nothing(rt: HostRuntime) -> Result<(), Fail> {
    let alloc = rt.alloc();
    let mut memtable = Memtable::new(alloc);
    set(alloc, &mut memtable, b"a", b"1")?;
    set(alloc, &mut memtable, b"d", b"2")?;
    let between = Span::new(alloc, b"b", b"d")?;
    assert!(rt; !memtable.overlaps(&between));
    let around = Span::new(alloc, b"b", b"d\0")?;
    assert!(rt; memtable.overlaps(&around));
    Ok(())
}

#[test]
fn the_laws_of_memtables_hold() {
    laws::untouched_commands_commute();
}
