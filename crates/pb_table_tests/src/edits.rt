ghost use Rattle.std.specs.Prelude.{◌<◌};
ghost use Rattle.pb_edit.specs.Grammar.{IsEdit};

use pb_bytes::{read_field, read_varint};
use pb_edit::{
    Backings, Deletions, Edit, LAST_LEVEL, Numbers, Physical, Physicals, Virtual, Virtuals,
};
use std::alloc::{AllocError, Global};
use std::test::Fail;

// The first edit of a new store.
const FIRST: [u8; 10] = [1, 0, 2, 0x40, 3, 3, 4, 0, 5, 1];

// Two tables go, and two come, from "a" to "bc" and from "bc" to "d".
const EXCHANGE: [u8; 29] = [
    3, 0x80, 1, 6, 0, 4, 6, 0, 5, 7, 0, 6, 6, 9, 1, b'a', 2, b'b', b'c', 7, 0, 7, 7, 0, 2, b'b',
    b'c', 1, b'd',
];

const CHANGED: [u8; 5] = [0, 1, 0x7f, 0x80, 0xff];

// The first edit's spelling behind bytes that were there.
fn first_spelled(alloc: Global) -> Result<Vec<u8>, AllocError> {
    let first = numbers_alone(alloc, 0, 64, 3);
    let mut out = Vec::from_slice(alloc, b"front")?;
    first.encode(alloc, &mut out)?;
    Ok(out)
}

#[test]
fn the_first_edit_is_spelled_by_its_five_numbers(rt: HostRuntime) -> Result<(), Fail> {
    let out = first_spelled(rt.alloc())?;
    assert!(rt; out.len() == 15);
    assert!(rt; &out[..5] == b"front".as_slice());
    assert!(rt; &out[5..] == FIRST.as_slice());
    Ok(())
}

#[test]
fn five_numbers_are_read(rt: HostRuntime) -> Result<(), Fail> {
    let read = Edit::decode(rt.alloc(), &FIRST)?.ok_or("no edit")?;
    assert_eq!(rt; read.accepted, Some(0));
    assert_eq!(rt; read.next, Some(64));
    assert_eq!(rt; read.log, Some(3));
    assert_eq!(rt; read.flushed, Some(0));
    assert_eq!(rt; read.format, Some(1));
    Ok(())
}

// An edit of a new store's five numbers.
#[tactic(auto, unfolding(pb_edit::specs::Grammar::edit_spelling))]
fn numbers_alone(alloc: Global, accepted: u64, next: u64, log: u64) -> Edit
    requires accepted { accepted < 100 }
    requires next { next < 100 }
    requires log { log < 100 }
    ensures { IsEdit result }
{
    Edit {
        accepted: Some(accepted),
        next: Some(next),
        log: Some(log),
        flushed: Some(accepted),
        format: Some(1),
        deleted: Deletions::from_vec(Vec::new(alloc)),
        physical: Physicals::from_vec(Vec::new(alloc)),
        virtuals: Virtuals::from_vec(Vec::new(alloc)),
        created: Backings::from_vec(Vec::new(alloc)),
        removed: Numbers::from_vec(Vec::new(alloc)),
    }
}

#[test]
fn tables_go(rt: HostRuntime) -> Result<(), Fail> {
    let edit = Edit::decode(rt.alloc(), &EXCHANGE)?.ok_or("no edit")?;
    assert!(rt; edit.accepted.is_none());
    assert_eq!(rt; edit.log, Some(128));
    let deleted = edit.deleted.as_slice();
    assert!(rt; deleted.len() == 2);
    let first = &deleted[0];
    let second = &deleted[1];
    assert_eq!(rt; first.number, 4);
    assert_eq!(rt; second.number, 5);
    Ok(())
}

fn is_exchanged(table: &Physical) -> bool {
    table.level == 0
        && [table.number, table.rank, table.size] == [6, 6, 9]
        && table.lo.as_slice() == b"a".as_slice()
        && table.hi.as_slice() == b"bc".as_slice()
}

#[test]
fn tables_come(rt: HostRuntime) -> Result<(), Fail> {
    let edit = Edit::decode(rt.alloc(), &EXCHANGE)?.ok_or("no edit")?;
    let physical = edit.physical.as_slice();
    assert!(rt; physical.len() == 2);
    assert!(rt; is_exchanged(&physical[0]));
    assert_eq!(rt; edit.virtuals.as_slice().len(), 0);
    assert_eq!(rt; edit.created.as_slice().len(), 0);
    assert_eq!(rt; edit.removed.as_slice().len(), 0);
    Ok(())
}

// What decodes is spelled by the same bytes.
fn is_kept(alloc: Global, bytes: &[u8]) -> Result<bool, AllocError> {
    let Some(edit) = Edit::decode(alloc, bytes)? else {
        return Ok(!is_spelling(bytes));
    };
    let mut out = Vec::new(alloc);
    edit.encode(alloc, &mut out)?;
    Ok(is_spelling(bytes) && out.as_slice() == bytes)
}

#[test]
fn a_cut_or_changed_edit_is_none_or_another(rt: HostRuntime) -> Result<(), Fail> {
    let alloc = rt.alloc();
    for bytes in [FIRST.as_slice(), EXCHANGE.as_slice(), CARVE.as_slice()] {
        for at in 0..bytes.len() {
            assert!(rt; is_kept(alloc, &bytes[..at])?, "cut at {at}");
            for byte in CHANGED {
                let mut changed = Vec::from_slice(alloc, bytes)?;
                changed[at] = byte;
                assert!(rt; is_kept(alloc, &changed)?, "{byte} at {at}");
            }
        }
        assert!(rt; is_kept(alloc, bytes)?);
    }
    Ok(())
}

#[test]
fn each_short_string_is_an_edit_where_a_plain_reader_says_so(rt: HostRuntime) -> Result<(), Fail> {
    let alloc = rt.alloc();
    let letters = [0u8, 1, 2, 6, 7, 9, 10, 0x80];
    for a in letters {
        for b in letters {
            for c in letters {
                for d in letters {
                    let bytes = [a, b, c, d, 6, 0, 2];
                    for len in 0..8 {
                        let part = &bytes[..len];
                        assert!(rt; is_kept(alloc, part)?, "{part:?}");
                    }
                }
            }
        }
    }
    Ok(())
}

// A plain reader: item by item, each above the one before.
fn is_spelling(bytes: &[u8]) -> bool {
    let mut rest = bytes;
    let mut before = (0u8, 0u8, 0u64);
    for _ in 0..bytes.len() {
        let Some((&kind, content)) = rest.split_first() else {
            break;
        };
        let Some((level, number, len)) = plain_item(kind, content) else {
            return false;
        };
        let is_above = before.0 < kind
            || (before.0 == kind && kind > 5 && (before.1, before.2) < (level, number));
        if !is_above || len > content.len() {
            return false;
        }
        before = (kind, level, number);
        rest = &content[len..];
    }
    !bytes.is_empty()
}

// The level and number of an item, and the length of its content.
fn plain_item(kind: u8, content: &[u8]) -> Option<(u8, u64, usize)> {
    let (numbers, fields) = match kind {
        1..=5 => (1, 0),
        6 => (1, 0),
        7 => (3, 2),
        8 => (3, 4),
        9 => (2, 0),
        10 => (1, 0),
        _ => return None,
    };
    let mut len = 0;
    let mut number = 0;
    let mut level = 0;
    if (6..=8).contains(&kind) {
        level = *content.first()?;
        if level > LAST_LEVEL {
            return None;
        }
        len = 1;
    }
    for place in 0..numbers {
        let (value, used) = read_varint(content.get(len..)?)?;
        if value >= 1 << 62 {
            return None;
        }
        if place == 0 {
            number = value;
        }
        len = len.checked_add(used)?;
    }
    for _ in 0..fields {
        let (_, used) = read_field(content.get(len..)?)?;
        len = len.checked_add(used)?;
    }
    Some((level, number, len))
}

#[test]
fn what_is_off_the_grammar_is_no_edit(rt: HostRuntime) -> Result<(), Fail> {
    let largest = [1, 255, 255, 255, 255, 255, 255, 255, 255, 63];
    let bound = [1, 128, 128, 128, 128, 128, 128, 128, 128, 64];
    assert!(rt; Edit::decode(rt.alloc(), &largest)?.is_some(), "2^62 - 1");
    for (bytes, why) in [
        ([].as_slice(), "no item"),
        ([2, 1, 1, 1].as_slice(), "kinds out of order"),
        ([1, 1, 1, 1].as_slice(), "kind 1 twice"),
        ([6, 0, 3, 6, 0, 3].as_slice(), "a number twice"),
        ([6, 0, 3, 6, 0, 2].as_slice(), "numbers out of order"),
        ([6, 7, 3].as_slice(), "no level"),
        (bound.as_slice(), "2^62"),
        ([1, 1, 0].as_slice(), "bytes behind the last item"),
        ([1, 0x80, 0].as_slice(), "a longer spelling of 0"),
        (
            [7, 0, 6, 6, 9, 1, b'a', 2, b'b'].as_slice(),
            "a field cut short",
        ),
        (
            [8, 0, 1, 1, 1, 0, 0, 0].as_slice(),
            "a virtual table without its suffix",
        ),
        ([9, 1, 1, 9, 1, 2].as_slice(), "a backing twice"),
        ([10, 2, 10, 1].as_slice(), "removed numbers out of order"),
        ([11, 1].as_slice(), "no kind"),
    ] {
        assert!(rt; Edit::decode(rt.alloc(), bytes)?.is_none(), "{why}");
    }
    Ok(())
}

// A table becomes the backing of another, and a backing goes.
const CARVE: [u8; 22] = [
    6, 6, 4, 8, 6, 6, 4, 4, 1, b'a', 1, b'b', 0, 0, 9, 4, 0xac, 2, 10, 3, 10, 5,
];

fn is_carved(table: &Virtual) -> bool {
    [table.number, table.rank, table.backing] == [6, 4, 4]
        && table.lo.as_slice() == b"a".as_slice()
        && table.hi.as_slice() == b"b".as_slice()
        && table.suffix.as_slice().is_empty()
}

#[test]
fn backings_come_and_go(rt: HostRuntime) -> Result<(), Fail> {
    let edit = Edit::decode(rt.alloc(), &CARVE)?.ok_or("no edit")?;
    let virtuals = edit.virtuals.as_slice();
    assert!(rt; virtuals.len() == 1);
    assert!(rt; is_carved(&virtuals[0]));
    let created = edit.created.as_slice();
    assert!(rt; created.len() == 1);
    let backing = &created[0];
    assert_eq!(rt; backing.size, 300);
    assert!(rt; edit.removed.as_slice() == [3, 5].as_slice());
    Ok(())
}
