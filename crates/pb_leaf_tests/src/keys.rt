ghost use Rattle.std.specs.Prelude.{◌≤◌, length};

use pb_keys::{Boxed, Bytes, Key, KeyError, List, Span, SpanError, View, laws};
use std::alloc::Global;
use std::cmp::Ordering;
use std::test::Fail;

#[test]
fn bytes_are_those_that_were_given(rt: HostRuntime) -> Result<(), Fail> {
    let text = b"0123456789abcde@\0";
    for length in 0..18 {
        let bytes = Bytes::new(rt.alloc(), &text[..length])?;
        assert_eq!(rt; bytes.as_slice(), &text[..length], "{length} bytes");
        let copy = bytes.copy(rt.alloc())?;
        assert!(rt; copy == bytes, "{length} bytes");
        for other in 0..length {
            assert!(rt;
                Bytes::new(rt.alloc(), &text[..other])? != bytes,
                "{other} and {length} bytes"
            );
        }
        let moved = copy.into_vec(rt.alloc())?;
        assert_eq!(rt; moved.as_slice(), &text[..length], "{length} bytes");
        let again = Bytes::from_vec(rt.alloc(), moved)?;
        assert!(rt; again == bytes, "{length} bytes");
    }
    Ok(())
}

#[test]
fn a_boxed_value_is_the_value(rt: HostRuntime) -> Result<(), Fail> {
    let boxed = Boxed::new(rt.alloc(), 7)?;
    assert_eq!(rt; *boxed.get(), 7);
    assert_eq!(rt; boxed.into_inner(), 7);
    Ok(())
}

#[test]
fn a_list_is_its_values(rt: HostRuntime) -> Result<(), Fail> {
    let list = List::from_vec(vec![in rt.alloc(); 3u8, 1, 2]?);
    assert_eq!(rt; list.as_slice(), [3, 1, 2].as_slice());
    assert_eq!(rt; list.get(2), Some(&2));
    assert!(rt; list.get(3).is_none());
    let mut sum = 0u32;
    for value in list.iter() {
        sum = sum.wrapping_add(u32::from(*value));
    }
    assert_eq!(rt; sum, 6);
    assert_eq!(rt; list.into_vec().len(), 3);
    Ok(())
}

// The place of the first '@', by looking at each.
fn plain_split(bytes: &[u8]) -> usize
    ensures { result ≤ length bytes.now }
{
    for (at, byte) in bytes.iter().enumerate() {
        if *byte == b'@' {
            return at;
        }
    }
    bytes.len()
}

// By prefix, then by suffix, byte for byte.
fn plain_cmp(a: &[u8], b: &[u8]) -> Ordering {
    let (prefix_a, suffix_a) = a.split_at(plain_split(a));
    let (prefix_b, suffix_b) = b.split_at(plain_split(b));
    if prefix_a != prefix_b {
        return prefix_a.cmp(&prefix_b);
    }
    suffix_a.cmp(&suffix_b)
}

#[test]
fn keys_out_of_form_are_refused(rt: HostRuntime) -> Result<(), Fail> {
    let alloc = rt.alloc();
    let longest = vec![in alloc; 97u8; 1024]?;
    assert_eq!(rt; Key::new(alloc, longest.as_slice())?.as_bytes().len(), 1024);
    let too_long = vec![in alloc; 97u8; 1025]?;
    for bytes in [
        b"".as_slice(),
        b"@".as_slice(),
        b"@a".as_slice(),
        too_long.as_slice(),
    ] {
        match Key::new(alloc, bytes) {
            Err(error) => assert_eq!(rt; error, KeyError::BadKey),
            Ok(_) => panic!(rt; "a key of {} bytes", bytes.len()),
        }
    }
    Ok(())
}

#[test]
fn keys_are_split_at_their_first_at(rt: HostRuntime) -> Result<(), Fail> {
    for (bytes, prefix, suffix) in [
        ("a", "a", ""),
        ("a@", "a", "@"),
        ("a@9", "a", "@9"),
        ("ab@@c", "ab", "@@c"),
        ("b@1@2", "b", "@1@2"),
    ] {
        let key = Key::new(rt.alloc(), bytes.as_bytes())?.copy(rt.alloc())?;
        assert_eq!(rt; key.prefix(), prefix.as_bytes(), "{bytes}");
        assert_eq!(rt; key.suffix(), suffix.as_bytes(), "{bytes}");
        assert_eq!(rt; key.as_bytes(), bytes.as_bytes(), "{bytes}");
    }
    Ok(())
}

#[test]
fn keys_compare_as_a_plain_program_does(rt: HostRuntime) -> Result<(), Fail> {
    let rising = [
        "!", "A", "a", "a@", "a@1", "a@9", "a@9!", "a@@", "a\0", "a!", "a!@0", "aa", "b@",
    ];
    let mut keys = Vec::new(rt.alloc());
    for text in rising {
        keys.push(Key::new(rt.alloc(), text.as_bytes())?)?;
    }
    for a in &keys {
        for b in &keys {
            assert_eq!(rt;
                a.cmp(b),
                plain_cmp(a.as_bytes(), b.as_bytes()),
                "{a:?} and {b:?}"
            );
            assert_eq!(rt; a == b, a.as_bytes() == b.as_bytes(), "{a:?} and {b:?}");
        }
    }
    for pair in keys.windows(2) {
        if let [a, b] = pair {
            assert!(rt; a < b, "{a:?} and {b:?}");
        }
    }
    Ok(())
}

// Whether some of the points, in order, stand in both spans.
fn plain_overlap(points: &[&str], a: (&str, &str), b: (&str, &str)) -> bool {
    let mut found = false;
    for point in points {
        if a.0 <= *point && *point < a.1 && b.0 <= *point && *point < b.1 {
            found = true;
        }
    }
    found
}

#[test]
fn spans_out_of_form_are_refused(rt: HostRuntime) -> Result<(), Fail> {
    let alloc = rt.alloc();
    let longest = vec![in alloc; 98u8; 1025]?;
    let span = Span::new(alloc, b"a", longest.as_slice())?.copy(alloc)?;
    assert_eq!(rt; span.lo(), b"a".as_slice());
    assert_eq!(rt; span.hi().len(), 1025);
    let too_long = vec![in alloc; 98u8; 1026]?;
    for (lo, hi) in [
        ("", "b"),
        ("a", ""),
        ("b", "b"),
        ("b", "a"),
        ("a@", "b"),
        ("a", "b@1"),
    ] {
        match Span::new(alloc, lo.as_bytes(), hi.as_bytes()) {
            Err(error) => assert_eq!(rt; error, SpanError::BadSpan),
            Ok(_) => panic!(rt; "a span from {lo} to {hi}"),
        }
    }
    assert!(rt; Span::new(alloc, b"a", too_long.as_slice()).is_err());
    Ok(())
}

#[test]
fn a_span_holds_keys_by_their_prefix(rt: HostRuntime) -> Result<(), Fail> {
    let span = Span::new(rt.alloc(), b"b", b"d")?;
    for (text, held) in [
        ("a@9", false),
        ("b", true),
        ("b@1", true),
        ("c!", true),
        ("cz@@", true),
        ("d", false),
        ("d@0", false),
        ("da", false),
    ] {
        let key = Key::new(rt.alloc(), text.as_bytes())?;
        assert_eq!(rt; span.contains(&key), held, "{text}");
    }
    Ok(())
}

#[test]
fn spans_overlap_as_a_plain_program_says(rt: HostRuntime) -> Result<(), Fail> {
    let ends = ["a", "b", "c", "d", "e"];
    for (lo_a, hi_a) in [("a", "c"), ("b", "d"), ("c", "e"), ("a", "e"), ("b", "c")] {
        let a = Span::new(rt.alloc(), lo_a.as_bytes(), hi_a.as_bytes())?;
        for (lo_b, hi_b) in [
            ("a", "b"),
            ("b", "c"),
            ("c", "d"),
            ("d", "e"),
            ("b", "d"),
            ("a", "e"),
        ] {
            let b = Span::new(rt.alloc(), lo_b.as_bytes(), hi_b.as_bytes())?;
            let expected = plain_overlap(ends.as_slice(), (lo_a, hi_a), (lo_b, hi_b));
            assert_eq!(rt; a.overlaps(&b), expected, "{a:?} and {b:?}");
        }
    }
    Ok(())
}

#[test]
fn what_is_out_of_form_is_not_read(rt: HostRuntime) -> Result<(), Fail> {
    let alloc = rt.alloc();
    assert!(rt; Key::read(alloc, b"a@9")?.is_some());
    assert!(rt; Key::read(alloc, b"@9")?.is_none());
    assert!(rt; Span::read(alloc, b"a", b"b")?.is_some());
    assert!(rt; Span::read(alloc, b"b", b"b")?.is_none());
    Ok(())
}

#[test]
fn a_key_is_ordered_against_parts(rt: HostRuntime) -> Result<(), Fail> {
    let alloc = rt.alloc();
    let texts = ["!", "a", "a@", "a@1", "a@9!", "a!", "b@"];
    for a in texts {
        let a = Key::new(alloc, a.as_bytes())?;
        for b in texts {
            let b = Key::new(alloc, b.as_bytes())?;
            assert_eq!(rt;
                a.is_below(b.prefix(), b.suffix()),
                a < b,
                "{a:?} and {b:?}"
            );
        }
    }
    Ok(())
}

// Whether the spans with these ends, a's and then b's, joined reach from `a` to `d`.
fn are_joined(alloc: Global, ends: [&str; 4]) -> Result<bool, Fail> {
    let a = Span::new(alloc, ends[0].as_bytes(), ends[1].as_bytes())?;
    let b = Span::new(alloc, ends[2].as_bytes(), ends[3].as_bytes())?;
    let both = Span::joined(alloc, &a, &b)?;
    Ok(both.lo() == b"a".as_slice() && both.hi() == b"d".as_slice())
}

#[test]
fn joined_spans_reach_from_the_lesser_start_to_the_greater_end(
    rt: HostRuntime,
) -> Result<(), Fail> {
    let alloc = rt.alloc();
    assert!(rt; are_joined(alloc, ["a", "b", "c", "d"])?, "apart");
    assert!(rt; are_joined(alloc, ["c", "d", "a", "b"])?, "turned round");
    assert!(rt; are_joined(alloc, ["a", "d", "b", "c"])?, "within");
    assert!(rt; are_joined(alloc, ["a", "c", "b", "d"])?, "overlapping");
    Ok(())
}

#[test]
fn known_ends_make_their_span(rt: HostRuntime) -> Result<(), Fail> {
    let span = Span::new(rt.alloc(), b"a", b"d")?;
    let again = Span::between(rt.alloc(), span.lo(), span.hi())?;
    assert_eq!(rt; again.lo(), span.lo());
    assert_eq!(rt; again.hi(), span.hi());
    Ok(())
}

#[test]
fn a_copied_view_is_the_view(rt: HostRuntime) -> Result<(), Fail> {
    let alloc = rt.alloc();
    let view = View {
        bounds: Span::new(alloc, b"t/", b"t0")?,
        prefix: Bytes::new(alloc, b"t/")?,
        suffix: Bytes::new(alloc, b"@7")?,
    };
    let copy = view.copy(alloc)?;
    assert_eq!(rt; copy.bounds.lo(), b"t/".as_slice());
    assert_eq!(rt; copy.bounds.hi(), b"t0".as_slice());
    assert_eq!(rt; copy.prefix.as_slice(), b"t/".as_slice());
    assert_eq!(rt; copy.suffix.as_slice(), b"@7".as_slice());
    Ok(())
}

#[test]
fn each_law_is_called(_rt: HostRuntime) {
    laws::keys_are_ordered();
    laws::parts_are_the_key();
    laws::prefixes_decide_first();
    laws::a_zero_byte_makes_the_least_end();
    laws::cut_by_key();
    laws::without_by_key();
    laws::same_pairs();
    laws::forms_are_tested();
    laws::limits_are_numerals();
}
