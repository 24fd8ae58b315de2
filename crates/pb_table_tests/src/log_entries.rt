ghost use Rattle.std.specs.Prelude.{◌≤◌, IsTrue, length};

use pb_keys::{Bytes, Key, Span};
use pb_wal::{Change, Entry};
use std::alloc::{AllocError, Global};
use std::test::Fail;

// What the entry is encoded to behind a byte that was there.
#[tactic(auto, using(pb_wal::proofs::DecodedLaws::short_of))]
fn again(alloc: Global, from: &[u8]) -> Result<Option<Vec<u8>>, AllocError> {
    let Some(entry) = Entry::decode(alloc, from)? else {
        return Ok(None);
    };
    let mut out = Vec::new(alloc);
    entry.encode(alloc, &mut out)?;
    Ok(Some(out))
}

fn is_decoded(alloc: Global, from: &[u8]) -> Result<bool, AllocError> {
    let found = Entry::decode(alloc, from)?;
    Ok(found.is_some())
}

#[test]
fn the_first_set_has_six_bytes(rt: HostRuntime) -> Result<(), Fail> {
    let key = Key::new(rt.alloc(), b"a")?;
    let value = Bytes::new(rt.alloc(), b"1")?;
    let entry = Entry {
        count: 1,
        change: Change::Set(key, value),
    };
    let mut out = Vec::from_slice(rt.alloc(), b"front")?;
    entry.encode(rt.alloc(), &mut out)?;
    assert!(rt; out.as_slice() == b"front\x01\x01\x01a\x011".as_slice());
    Ok(())
}

#[test]
fn a_set_is_decoded(rt: HostRuntime) -> Result<(), Fail> {
    let entry = Entry::decode(rt.alloc(), b"\x01\x01\x01a\x011")?.ok_or("none")?;
    assert_eq!(rt; entry.count, 1);
    let Change::Set(key, value) = &entry.change else {
        return Err(Fail::from("no set"));
    };
    assert!(rt; key.as_bytes() == b"a".as_slice());
    assert!(rt; value.as_slice() == b"1".as_slice());
    Ok(())
}

#[test]
fn a_deletion_has_its_kind_and_its_key(rt: HostRuntime) -> Result<(), Fail> {
    let key = Key::new(rt.alloc(), b"a@9")?;
    let entry = Entry {
        count: 300,
        change: Change::Del(key),
    };
    let mut out = Vec::new(rt.alloc());
    entry.encode(rt.alloc(), &mut out)?;
    assert!(rt; out.as_slice() == b"\xac\x02\x02\x03a@9".as_slice());
    let entry = Entry::decode(rt.alloc(), &out)?.ok_or("none")?;
    assert_eq!(rt; entry.count, 300);
    let Change::Del(key) = &entry.change else {
        return Err(Fail::from("no deletion"));
    };
    assert!(rt; key.as_bytes() == b"a@9".as_slice());
    Ok(())
}

#[test]
fn a_deleted_span_has_its_two_ends(rt: HostRuntime) -> Result<(), Fail> {
    let span = Span::new(rt.alloc(), b"a", b"c")?;
    let entry = Entry {
        count: (1 << 62) - 1,
        change: Change::DelRange(span),
    };
    let mut out = Vec::new(rt.alloc());
    entry.encode(rt.alloc(), &mut out)?;
    assert!(rt; out.as_slice() == b"\xff\xff\xff\xff\xff\xff\xff\xff\x3f\x03\x01a\x01c".as_slice());
    let entry = Entry::decode(rt.alloc(), &out)?.ok_or("none")?;
    assert_eq!(rt; entry.count, (1 << 62) - 1);
    let Change::DelRange(span) = &entry.change else {
        return Err(Fail::from("no span"));
    };
    assert!(rt; span.lo() == b"a".as_slice());
    assert!(rt; span.hi() == b"c".as_slice());
    Ok(())
}

// Bytes that are no entry, each beside one that is: of the same kind, where the kind is one.
const OFF: [(&[u8], &[u8], &str); 20] = [
    (b"", b"\x01\x02\x01a", "nothing"),
    (
        b"\x80\x00\x02\x01a",
        b"\x00\x02\x01a",
        "a longer spelling of the count",
    ),
    (
        b"\x80\x80\x80\x80\x80\x80\x80\x80\x40\x02\x01a",
        b"\xff\xff\xff\xff\xff\xff\xff\xff\x3f\x02\x01a",
        "the count 2^62",
    ),
    (b"\x01\x00\x01a\x011", b"\x01\x01\x01a\x011", "kind 0"),
    (
        b"\x01\x04\x00\x01\x04\x08",
        b"\x01\x01\x01\x04\x01\x08",
        "an ingest",
    ),
    (
        b"\x01\x01\x00\x011",
        b"\x01\x01\x01a\x011",
        "an empty key of a set",
    ),
    (
        b"\x01\x01\x01@\x011",
        b"\x01\x01\x02a@\x011",
        "a set's key that is an at sign",
    ),
    (b"\x01\x02\x00", b"\x01\x02\x01a", "an empty key"),
    (
        b"\x01\x02\x02@a",
        b"\x01\x02\x02a@",
        "a key that begins with an at sign",
    ),
    (
        b"\x01\x02\x01@",
        b"\x01\x02\x01a",
        "a key that is an at sign",
    ),
    (
        b"\x01\x03\x01b\x01a",
        b"\x01\x03\x01a\x01b",
        "a span that falls",
    ),
    (
        b"\x01\x03\x01a\x01a",
        b"\x01\x03\x01a\x02aa",
        "an empty span",
    ),
    (
        b"\x01\x03\x03a@1\x01c",
        b"\x01\x03\x02a1\x01c",
        "an end with an at sign",
    ),
    (
        b"\x01\x03\x01a\x02b@",
        b"\x01\x03\x01a\x02bA",
        "the other end with one",
    ),
    (
        b"\x01\x03\x00\x01c",
        b"\x01\x03\x01a\x01c",
        "an end without bytes",
    ),
    (
        b"\x01\x02\x01a\x00",
        b"\x01\x02\x01a",
        "a byte behind a deletion",
    ),
    (
        b"\x01\x01\x01a\x011\x00",
        b"\x01\x01\x01a\x021\x00",
        "a byte behind a set",
    ),
    (
        b"\x01\x03\x01a\x01c\x00",
        b"\x01\x03\x01a\x02c\x00",
        "a byte behind a span",
    ),
    (
        b"\x01\x02\x81\x00a",
        b"\x01\x02\x01a",
        "a longer spelling of a length",
    ),
    (
        b"\x01\x02\xff\xff\xff\xff\xff\xff\xff\xff\xff\x01a",
        b"\x01\x02\x01a",
        "a length of 2^64 - 1",
    ),
];

#[test]
fn what_is_off_the_grammar_is_no_entry(rt: HostRuntime) -> Result<(), Fail> {
    for (bytes, near, why) in OFF {
        assert!(rt; !is_decoded(rt.alloc(), bytes)?, "{why}");
        assert!(rt; is_decoded(rt.alloc(), near)?, "beside {why}");
    }
    Ok(())
}

// The front, and so many bytes `k` behind it.
fn padded(alloc: Global, front: &[u8], len: usize) -> Result<Vec<u8>, AllocError> {
    let mut bytes = Vec::from_slice(alloc, front)?;
    for _ in 0..len {
        bytes.push(b'k')?;
    }
    Ok(bytes)
}

#[test]
fn keys_ends_and_values_have_their_limits(rt: HostRuntime) -> Result<(), Fail> {
    for (front, len, fits) in [
        (b"\x01\x02\x80\x08".as_slice(), 1024, true),
        (b"\x01\x02\x81\x08".as_slice(), 1025, false),
        (b"\x01\x01\x01a\x80\x80\x04".as_slice(), 65_536, true),
        (b"\x01\x01\x01a\x81\x80\x04".as_slice(), 65_537, false),
        (b"\x01\x03\x01a\x81\x08".as_slice(), 1025, true),
        (b"\x01\x03\x01a\x82\x08".as_slice(), 1026, false),
    ] {
        let bytes = padded(rt.alloc(), front, len)?;
        assert!(rt;
            is_decoded(rt.alloc(), &bytes)? == fits,
            "{len} bytes behind {front:?}"
        );
    }
    Ok(())
}

// A set, a deletion and a deleted span.
const THREE: [&[u8]; 3] = [
    b"\xac\x02\x01\x03a@9\x021\x00",
    b"\x01\x02\x02ab",
    b"\x7f\x03\x01a\x02bc",
];

#[test]
fn a_part_of_an_entry_is_none(rt: HostRuntime) -> Result<(), Fail> {
    for bytes in THREE {
        assert!(rt; is_decoded(rt.alloc(), bytes)?, "{bytes:?}");
        for len in 0..bytes.len() {
            assert!(rt;
                !is_decoded(rt.alloc(), &bytes[..len])?,
                "{len} bytes of {bytes:?}"
            );
        }
    }
    Ok(())
}

// The bytes with this one at that place.
fn damaged(alloc: Global, bytes: &[u8], at: usize, byte: u8) -> Result<Vec<u8>, AllocError> {
    let mut copy = Vec::from_slice(alloc, bytes)?;
    if at < copy.len() {
        copy[at] = byte;
    }
    Ok(copy)
}

#[test]
fn a_damaged_entry_is_none_or_has_one_spelling(rt: HostRuntime) -> Result<(), Fail> {
    let mut decoded = 0u64;
    for bytes in THREE {
        for at in 0..bytes.len() {
            for byte in [0, 1, 0x7f, 0x80, 0xff] {
                let bytes = damaged(rt.alloc(), bytes, at, byte)?;
                if let Some(out) = again(rt.alloc(), &bytes)? {
                    assert!(rt; out.as_slice() == bytes.as_slice(), "{bytes:?}");
                    decoded = decoded.wrapping_add(1);
                }
            }
        }
    }
    assert_eq!(rt; decoded, 58);
    Ok(())
}

// Whether bytes below 128 are an entry, by places: each number is then one byte.
fn is_plain_entry(bytes: &[u8]) -> bool {
    let [_count, kind, len, rest @ ..] = bytes else {
        return false;
    };
    let len = usize::from(*len);
    if rest.len() < len {
        return false;
    }
    let first = &rest[..len];
    let rest = &rest[len..];
    match *kind {
        1 => is_plain_key(first) && is_plain_field(rest),
        2 => is_plain_key(first) && rest.is_empty(),
        3 => is_plain_field(rest) && is_plain_span(first, &rest[1..]),
        _ => false,
    }
}

fn is_plain_field(bytes: &[u8]) -> bool
    ensures { IsTrue result → 1 ≤ length bytes.now }
{
    !bytes.is_empty() && usize::from(bytes[0]) == bytes.len() - 1
}

fn is_plain_key(bytes: &[u8]) -> bool {
    !bytes.is_empty() && bytes[0] != b'@'
}

fn is_plain_span(lo: &[u8], hi: &[u8]) -> bool {
    !lo.is_empty() && lo < hi && !lo.contains(&b'@') && !hi.contains(&b'@')
}

const LETTERS: [u8; 6] = [0, 1, 2, 3, b'@', b'a'];

// The string of so many letters with this number, the first letter lowest.
fn string_of(alloc: Global, number: u64, len: usize) -> Result<Vec<u8>, AllocError> {
    let mut bytes = Vec::new(alloc);
    let mut rest = number;
    for _ in 0..len {
        bytes.push(LETTERS[(rest % 6) as usize])?;
        rest /= 6;
    }
    Ok(bytes)
}

#[test]
fn each_string_of_up_to_six_letters_is_judged_by_places(rt: HostRuntime) -> Result<(), Fail> {
    let mut entries = 0u64;
    let mut strings = 1;
    for len in 0..7 {
        for number in 0..strings {
            let bytes = string_of(rt.alloc(), number, len)?;
            let is_entry = is_plain_entry(&bytes);
            match again(rt.alloc(), &bytes)? {
                None => assert!(rt; !is_entry, "{bytes:?}"),
                Some(out) => {
                    assert!(rt; is_entry && out.as_slice() == bytes.as_slice(), "{bytes:?}");
                    entries = entries.wrapping_add(1);
                }
            }
        }
        strings = 6u64.wrapping_mul(strings);
    }
    assert!(rt; entries > 1000, "{entries}");
    Ok(())
}
