ghost use Rattle.std.specs.Prelude.{IsTrue, IfOk, All};
ghost use Rattle.pb_keys.specs.View.{IsPrefix, IsSuffix, IsMapping};
ghost use Rattle.pb_rows.specs.Layer.{IsShortRow};

use super::layers::{add_short, layer_of};
use pb_keys::{Bytes, Key, Span, View};
use pb_rows::{Layer, Row};
use pb_synth::{Wanted, clash, laws, map_key, maps_within, view_layer, wanted};
use std::alloc::Global;
use std::process::Abort;
use std::test::Fail;

const KEYS: [&str; 5] = ["a", "a@1", "a@2", "b", "b@1"];

const VALUES: [Option<&str>; 5] = [Some("1"), None, Some("2"), None, Some("3")];

const ENDS: [&str; 5] = ["a", "aa", "b", "ba", "c"];

const BOUNDS: [&str; 6] = ["a", "b", "c", "pa", "pb", "q"];

fn is_prefix(bytes: &[u8]) -> bool
    ensures { IsTrue result → IsPrefix bytes.now }
{
    bytes.len() <= 1024 && !bytes.contains(&b'@')
}

fn is_suffix(bytes: &[u8]) -> bool
    ensures { IsTrue result → IsSuffix bytes.now }
{
    if bytes.is_empty() {
        return true;
    }
    bytes.len() <= 1024 && bytes[0] == b'@'
}

fn is_mapping(view: &View) -> bool
    ensures { IsTrue result → IsMapping view.now }
{
    is_prefix(view.prefix.as_slice()) && is_suffix(view.suffix.as_slice())
}

fn view_of(alloc: Global, prefix: &str, suffix: &str, lo: &str, hi: &str) -> Result<View, Fail> {
    let bounds = Span::new(alloc, lo.as_bytes(), hi.as_bytes())?;
    let prefix = Bytes::new(alloc, prefix.as_bytes())?;
    let suffix = Bytes::new(alloc, suffix.as_bytes())?;
    Ok(View {
        bounds,
        prefix,
        suffix,
    })
}

// What the view shows, or None where the layer doesn't map within.
fn shown(alloc: Global, view: &View, layer: &Layer) -> Result<Option<Layer>, Fail> {
    // So the proof knows that the bounds are in form.
    let _lo = view.bounds.lo();
    if !is_mapping(view) {
        return Ok(None);
    }
    if !maps_within(view, layer) {
        return Ok(None);
    }
    let shown = view_layer(alloc, view, layer)?;
    Ok(Some(shown))
}

fn put_del(text: &mut Vec<u8>, lo: &[u8], hi: &[u8]) -> Result<(), Fail> {
    text.extend_from_slice(lo)?;
    text.extend_from_slice(b"..")?;
    text.extend_from_slice(hi)?;
    text.push(b' ')?;
    Ok(())
}

fn put_row(text: &mut Vec<u8>, key: &[u8], value: &Option<Bytes>) -> Result<(), Fail> {
    text.extend_from_slice(key)?;
    if let Some(bytes) = value {
        text.push(b'=')?;
        text.extend_from_slice(bytes.as_slice())?;
    }
    text.push(b' ')?;
    Ok(())
}

// Its deletions and its rows, each with a space behind it.
fn spelled(alloc: Global, layer: &Layer) -> Result<Vec<u8>, Fail> {
    let mut text = Vec::new(alloc);
    for del in layer.dels() {
        put_del(&mut text, del.lo(), del.hi())?;
    }
    for row in layer.rows() {
        put_row(&mut text, row.key.as_bytes(), &row.value)?;
    }
    Ok(text)
}

fn shown_text(alloc: Global, view: &View, layer: &Layer) -> Result<Option<Vec<u8>>, Fail> {
    match shown(alloc, view, layer)? {
        None => Ok(None),
        Some(shown) => {
            let text = spelled(alloc, &shown)?;
            Ok(Some(text))
        }
    }
}

fn is_text(found: &Option<Vec<u8>>, text: &str) -> bool {
    match found {
        None => false,
        Some(found) => found.as_slice() == text.as_bytes(),
    }
}

// Whether the view shows this of the layer.
fn shows(alloc: Global, view: &View, layer: &Layer, text: &str) -> Result<bool, Fail> {
    let found = shown_text(alloc, view, layer)?;
    Ok(is_text(&found, text))
}

#[test]
fn a_suffix_stands_in_the_place_of_each_own(rt: HostRuntime) -> Result<(), Fail> {
    let view = view_of(rt.alloc(), "t/", "@7", "t/", "t0")?;
    let layer = layer_of(rt.alloc(), &[], &[("a", None), ("b@3", Some("1"))])?;
    assert!(rt; shows(rt.alloc(), &view, &layer, "t/a@7 t/b@7=1 ")?);
    Ok(())
}

#[test]
fn a_prefix_stands_before_keys_and_ends(rt: HostRuntime) -> Result<(), Fail> {
    let view = view_of(rt.alloc(), "p-", "", "p-a", "p-z")?;
    let layer = layer_of(
        rt.alloc(),
        &[("c", "d")],
        &[("a", Some("1")), ("b@1", Some("2"))],
    )?;
    assert!(rt; shows(rt.alloc(), &view, &layer, "p-c..p-d p-a=1 p-b@1=2 ")?);
    Ok(())
}

// The first clash of rows with these keys.
fn clash_of(alloc: Global, texts: &[(&str, Option<&str>)]) -> Result<Option<usize>, Fail> {
    let layer = layer_of(alloc, &[], texts)?;
    Ok(clash(layer.rows()))
}

#[test]
fn rows_of_one_prefix_clash(rt: HostRuntime) -> Result<(), Fail> {
    let first = clash_of(rt.alloc(), &[("b@3", None), ("b@4", None)])?;
    assert_eq!(rt; first, Some(1));
    let none = clash_of(rt.alloc(), &[("a", None), ("b@3", None)])?;
    assert_eq!(rt; none, None);
    Ok(())
}

#[test]
fn rows_that_clash_are_not_shown(rt: HostRuntime) -> Result<(), Fail> {
    let view = view_of(rt.alloc(), "", "@7", "a", "z")?;
    let layer = layer_of(rt.alloc(), &[], &[("b@3", None), ("b@4", None)])?;
    assert!(rt; shown_text(rt.alloc(), &view, &layer)?.is_none());
    Ok(())
}

// The key's bytes up to its '@' where the view has a suffix, between the view's parts.
fn plain_key(alloc: Global, view: &View, key: &Key) -> Result<Vec<u8>, Fail> {
    let mut bytes = Vec::from_slice(alloc, view.prefix.as_slice())?;
    for byte in key.as_bytes() {
        if *byte == b'@' && !view.suffix.as_slice().is_empty() {
            break;
        }
        bytes.push(*byte)?;
    }
    bytes.extend_from_slice(view.suffix.as_slice())?;
    Ok(bytes)
}

fn joined(alloc: Global, front: &[u8], back: &[u8]) -> Result<Vec<u8>, Fail> {
    let mut bytes = Vec::from_slice(alloc, front)?;
    bytes.extend_from_slice(back)?;
    Ok(bytes)
}

// What lies both in the mapped deletion and in the bounds.
fn put_plain_del(alloc: Global, text: &mut Vec<u8>, view: &View, del: &Span) -> Result<(), Fail> {
    let lo = joined(alloc, view.prefix.as_slice(), del.lo())?;
    let hi = joined(alloc, view.prefix.as_slice(), del.hi())?;
    let from = view.bounds.lo().max(&lo);
    let to = view.bounds.hi().min(&hi);
    if from < to {
        put_del(text, from, to)?;
    }
    Ok(())
}

fn is_among(keys: &[Vec<u8>], key: &[u8]) -> bool {
    for other in keys {
        if other.as_slice() == key {
            return true;
        }
    }
    false
}

// Each row mapped, and then those kept that the bounds contain; None where two have one key.
fn plain_text(alloc: Global, view: &View, layer: &Layer) -> Result<Option<Vec<u8>>, Fail> {
    let mut text = Vec::new(alloc);
    for del in layer.dels() {
        put_plain_del(alloc, &mut text, view, del)?;
    }
    let mut keys = Vec::new(alloc);
    for row in layer.rows() {
        let bytes = plain_key(alloc, view, &row.key)?;
        if is_among(&keys, &bytes) {
            return Ok(None);
        }
        let key = Key::new(alloc, &bytes)?;
        if view.bounds.contains(&key) {
            put_row(&mut text, &bytes, &row.value)?;
        }
        keys.push(bytes)?;
    }
    Ok(Some(text))
}

// The keys of these places, of which the first is the number's lowest bit.
fn some_keys(
    alloc: Global,
    number: u32,
) -> Result<Vec<(&'static str, Option<&'static str>)>, Fail> {
    let mut texts = Vec::new(alloc);
    let mut rest = number;
    for at in 0..5 {
        if rest % 2 == 1 {
            texts.push((KEYS[at], VALUES[at]))?;
        }
        rest /= 2;
    }
    Ok(texts)
}

fn compare_views(rt: &impl Abort, alloc: Global, layer: &Layer) -> Result<(), Fail> {
    for (prefix, suffix) in [("", ""), ("p", ""), ("", "@7"), ("p", "@7")] {
        for lo in 0..6 {
            for hi in lo + 1..6 {
                let view = view_of(alloc, prefix, suffix, BOUNDS[lo], BOUNDS[hi])?;
                let same = shown_text(alloc, &view, layer)? == plain_text(alloc, &view, layer)?;
                assert!(rt; same, "{prefix} {suffix} {lo} {hi}");
            }
        }
    }
    Ok(())
}

fn compare_dels(rt: &impl Abort, alloc: Global, number: u32) -> Result<(), Fail> {
    let texts = some_keys(alloc, number)?;
    if texts.len() > 3 {
        return Ok(());
    }
    let layer = layer_of(alloc, &[], &texts)?;
    compare_views(rt, alloc, &layer)?;
    for lo in 0..5 {
        for hi in lo + 1..5 {
            let layer = layer_of(alloc, &[(ENDS[lo], ENDS[hi])], &texts)?;
            compare_views(rt, alloc, &layer)?;
        }
    }
    Ok(())
}

#[test]
fn each_view_of_each_layer_is_as_a_plain_program_has_it(rt: HostRuntime) -> Result<(), Fail> {
    for number in 0..32 {
        compare_dels(&rt, rt.alloc(), number)?;
    }
    Ok(())
}

fn parts_fit(found: &Option<Wanted<'_>>, key: &Key) -> bool {
    match found {
        None => false,
        Some(parts) => match parts.suffix {
            None => key.prefix() == parts.prefix,
            Some(suffix) => key.prefix() == parts.prefix && key.suffix() == suffix,
        },
    }
}

fn compare_wanted(rt: &impl Abort, alloc: Global, view: &View, text: &str) -> Result<(), Fail> {
    if !is_mapping(view) {
        return Ok(());
    }
    let key = Key::new(alloc, text.as_bytes())?;
    let found = wanted(view, &key);
    for backing in KEYS {
        let own = Key::new(alloc, backing.as_bytes())?;
        let maps = plain_key(alloc, view, &own)?.as_slice() == key.as_bytes();
        assert_eq!(rt; parts_fit(&found, &own), maps, "{backing} to {text}");
    }
    Ok(())
}

#[test]
fn the_wanted_keys_are_those_that_map_there(rt: HostRuntime) -> Result<(), Fail> {
    let alloc = rt.alloc();
    for (prefix, suffix) in [("", ""), ("p", ""), ("", "@7"), ("p", "@7")] {
        let view = view_of(alloc, prefix, suffix, "a", "z")?;
        for text in [
            "a", "a@1", "a@2", "a@7", "b", "b@1", "b@7", "p", "p@7", "pa", "pa@1", "pa@2", "pa@7",
            "pb", "pb@1", "pb@7", "q",
        ] {
            compare_wanted(&rt, alloc, &view, text)?;
        }
    }
    Ok(())
}

// Whether some key maps to this one.
fn has_wanted(alloc: Global, view: &View, text: &str) -> Result<bool, Fail> {
    if !is_mapping(view) {
        return Ok(false);
    }
    let key = Key::new(alloc, text.as_bytes())?;
    let some = wanted(view, &key).is_some();
    Ok(some)
}

// Whether some key maps through this prefix and suffix to this one.
fn is_wanted(alloc: Global, prefix: &str, suffix: &str, text: &str) -> Result<bool, Fail> {
    let view = view_of(alloc, prefix, suffix, "a", "z")?;
    let some = has_wanted(alloc, &view, text)?;
    Ok(some)
}

#[test]
fn no_key_is_behind_the_prefix_or_another_suffix(rt: HostRuntime) -> Result<(), Fail> {
    for text in ["p", "p@7", "q"] {
        assert!(rt; !is_wanted(rt.alloc(), "p", "", text)?, "{text}");
    }
    for text in ["p@7", "pa", "pa@3"] {
        assert!(rt; !is_wanted(rt.alloc(), "p", "@7", text)?, "{text}");
    }
    Ok(())
}

fn of_length(alloc: Global, length: usize) -> Result<Vec<u8>, Fail> {
    let bytes = vec![in alloc; b'p'; length]?;
    Ok(bytes)
}

fn long_view(alloc: Global, length: usize) -> Result<View, Fail> {
    let bounds = Span::new(alloc, b"a", b"z")?;
    let prefix = of_length(alloc, length)?;
    let prefix = Bytes::from_vec(alloc, prefix)?;
    let suffix = Bytes::new(alloc, b"")?;
    Ok(View {
        bounds,
        prefix,
        suffix,
    })
}

// The length of the mapped key, or 0 where it has none.
fn mapped_length(alloc: Global, view: &View, bytes: &[u8]) -> Result<usize, Fail> {
    if !is_mapping(view) {
        return Ok(0);
    }
    let key = Key::new(alloc, bytes)?;
    match map_key(alloc, view, &key)? {
        None => Ok(0),
        Some(mapped) => Ok(mapped.as_bytes().len()),
    }
}

// The length of a key of so many bytes mapped behind a prefix of so many, or 0.
fn length_behind(alloc: Global, prefix: usize, length: usize) -> Result<usize, Fail> {
    let view = long_view(alloc, prefix)?;
    let bytes = of_length(alloc, length)?;
    let length = mapped_length(alloc, &view, &bytes)?;
    Ok(length)
}

#[test]
fn keys_map_up_to_their_limit(rt: HostRuntime) -> Result<(), Fail> {
    assert_eq!(rt; length_behind(rt.alloc(), 1022, 2)?, 1024);
    assert_eq!(rt; length_behind(rt.alloc(), 1022, 3)?, 0);
    assert_eq!(rt; length_behind(rt.alloc(), 24, 1000)?, 1024);
    assert_eq!(rt; length_behind(rt.alloc(), 25, 1000)?, 0);
    Ok(())
}

// Whether a layer with this deletion and this row is shown behind a prefix of 1,022 bytes.
fn is_shown_behind(alloc: Global, del: (&str, &str), key: &str) -> Result<bool, Fail> {
    let view = long_view(alloc, 1022)?;
    let layer = layer_of(alloc, &[del], &[(key, None)])?;
    let some = shown(alloc, &view, &layer)?.is_some();
    Ok(some)
}

#[test]
fn layers_map_up_to_their_limits(rt: HostRuntime) -> Result<(), Fail> {
    assert!(rt; is_shown_behind(rt.alloc(), ("ab", "abc"), "ab")?);
    assert!(rt; !is_shown_behind(rt.alloc(), ("ab", "abc"), "abc")?);
    assert!(rt; !is_shown_behind(rt.alloc(), ("abc", "abcd"), "ab")?);
    Ok(())
}

fn digits(number: u32) -> [u8; 8] {
    let mut digits = [b'0'; 8];
    let mut rest = number;
    for place in 0..8 {
        digits[7 - place] = b'0' + (rest % 10) as u8;
        rest /= 10;
    }
    digits
}

fn numbered(alloc: Global, count: u32) -> Result<Layer, Fail> {
    let mut rows = Vec::new(alloc);
    for number in 0..count {
        let text = digits(number);
        let row = Row::of(alloc, &text, None)?;
        add_short(&mut rows, row)?;
    }
    let layer = Layer::new(alloc, Vec::new(alloc), rows)?;
    Ok(layer)
}

#[test]
fn many_rows_are_shown_behind_a_long_prefix(rt: HostRuntime) -> Result<(), Fail> {
    let alloc = rt.alloc();
    let layer = numbered(alloc, 100_000)?;
    let view = long_view(alloc, 1000)?;
    match shown(alloc, &view, &layer)? {
        None => assert!(rt; false),
        Some(shown) => assert_eq!(rt; shown.rows().len(), 100_000),
    }
    Ok(())
}

#[test]
fn the_laws_of_views_hold() {
    laws::limits_alone_decide();
    laws::a_suffix_alone_clashes();
    laws::what_maps_within();
    laws::mapped_prefixes_rise();
}
