ghost use Rattle.std.specs.Prelude.{◌<◌, IfOk, All};
ghost use Rattle.pb_rows.specs.Layer.{IsShortRow};

use pb_keys::{Bytes, Key, List, Span};
use pb_rangedel::{covers, cut, laws, over, over_all, over_owned, union};
use pb_rows::{Layer, Row};
use std::alloc::Global;
use std::test::Fail;

const ENDS: [&[u8]; 6] = [b"a", b"b", b"c", b"d", b"e", b"f"];

// Whether the plain list has the part from this end to the next.
fn is_set(mask: u32, place: usize) -> bool
    requires { place < 32 }
{
    (mask >> place) & 1 == 1
}

// The spans of a plain list of five parts: neighbouring parts are one span.
fn spans_of(alloc: Global, mask: u32) -> Result<Vec<Span>, Fail> {
    let mut spans = Vec::new(alloc);
    let mut begin = None;
    for place in 0..6 {
        let end = ENDS[place];
        let inside = place < 5 && is_set(mask, place);
        match begin {
            None if inside => begin = Some(end),
            Some(lo) if !inside => {
                spans.push(Span::new(alloc, lo, end)?)?;
                begin = None;
            }
            _ => {}
        }
    }
    Ok(spans)
}

fn are_same(a: &[Span], b: &[Span]) -> bool {
    if a.len() != b.len() {
        return false;
    }
    for (at, span) in a.iter().enumerate() {
        let other = &b[at];
        if span.lo() != other.lo() || span.hi() != other.hi() {
            return false;
        }
    }
    true
}

#[test]
fn a_union_holds_the_parts_of_both(rt: HostRuntime) -> Result<(), Fail> {
    let alloc = rt.alloc();
    for left in 0..32u32 {
        let a = spans_of(alloc, left)?;
        for right in 0..32u32 {
            let b = spans_of(alloc, right)?;
            let both = union(alloc, &a, &b)?;
            assert!(rt;
                are_same(&both, &spans_of(alloc, left | right)?),
                "{left} and {right}"
            );
        }
    }
    Ok(())
}

#[test]
fn a_cut_holds_the_parts_within(rt: HostRuntime) -> Result<(), Fail> {
    let alloc = rt.alloc();
    for mask in 0..32u32 {
        let dels = spans_of(alloc, mask)?;
        for within in 1..32u32 {
            let bounds = spans_of(alloc, within)?;
            if bounds.len() == 1 {
                let parts = cut(alloc, &dels, &bounds[0])?;
                assert!(rt;
                    are_same(&parts, &spans_of(alloc, mask & within)?),
                    "{mask} in {within}"
                );
            }
        }
    }
    Ok(())
}

#[test]
fn touching_spans_become_one_and_apart_ones_stay_two(rt: HostRuntime) -> Result<(), Fail> {
    let alloc = rt.alloc();
    let mut first = Vec::new(alloc);
    first.push(Span::new(alloc, b"a", b"c")?)?;
    let mut second = Vec::new(alloc);
    second.push(Span::new(alloc, b"c", b"e")?)?;
    let one = union(alloc, &second, &first)?;
    assert_eq!(rt; one.len(), 1);
    assert!(rt; one[0].lo() == b"a".as_slice() && one[0].hi() == b"e".as_slice());
    let mut behind = Vec::new(alloc);
    behind.push(Span::new(alloc, b"c\0", b"e")?)?;
    let two = union(alloc, &first, &behind)?;
    assert_eq!(rt; two.len(), 2);
    Ok(())
}

// A layer whose spans are these parts, and whose rows lie in the second, the third and the fourth part.
fn layer_of(alloc: Global, mask: u32, rows: u32, text: &[u8]) -> Result<Layer, Fail> {
    let dels = spans_of(alloc, mask)?;
    let mut list = Vec::new(alloc);
    add_row(alloc, &mut list, b"b", rows % 3, text)?;
    add_row(alloc, &mut list, b"c@1", rows / 3 % 3, text)?;
    add_row(alloc, &mut list, b"d", rows / 9 % 3, text)?;
    let layer = Layer::new(alloc, dels, list)?;
    Ok(layer)
}

// 0 for no row, 1 for a deleted key, 2 for a value.
fn add_row(
    alloc: Global,
    rows: &mut Vec<Row>,
    key: &[u8],
    kind: u32,
    text: &[u8],
) -> Result<(), Fail>
    requires { All IsShortRow rows.old.items }
    ensures { All IsShortRow rows.new.items }
{
    if kind == 0 {
        return Ok(());
    }
    let key = Key::new(alloc, key)?;
    let mut value = None;
    if kind == 2 {
        value = Some(Bytes::new(alloc, text)?);
    }
    let row = Row { key, value };
    if row.is_short() {
        rows.push(row)?;
    }
    Ok(())
}

// The row of this key, in the same kinds, and whether it is a newer one.
fn kind_in(layer: &Layer, key: &[u8]) -> (u32, bool) {
    for row in layer.rows() {
        if row.key.as_bytes() == key {
            return match &row.value {
                None => (1, false),
                Some(bytes) => (2, bytes.as_slice() == b"newer".as_slice()),
            };
        }
    }
    (0, false)
}

// What a plain program has of a key: the newer row, or else the older one where no newer span holds it.
fn plain_kind(newer: u32, older: u32, is_hidden: bool) -> (u32, bool) {
    if newer != 0 {
        (newer, newer == 2)
    } else if is_hidden {
        (0, false)
    } else {
        (older, false)
    }
}

#[test]
fn newer_rows_and_deletions_come_first(rt: HostRuntime) -> Result<(), Fail> {
    let alloc = rt.alloc();
    for mask in 0..16u32 {
        for rows in 0..27u32 {
            let newer = layer_of(alloc, mask, rows, b"newer")?;
            for other in 0..27u32 {
                let older = layer_of(alloc, 6, other, b"older")?;
                let both = over(alloc, &newer, &older)?;
                assert!(rt;
                    are_same(both.dels(), &spans_of(alloc, mask | 6)?),
                    "{mask}"
                );
                let b = plain_kind(rows % 3, other % 3, is_set(mask, 1));
                assert_eq!(rt; kind_in(&both, b"b"), b, "b: {mask} {rows} {other}");
                let c = plain_kind(rows / 3 % 3, other / 3 % 3, is_set(mask, 2));
                assert_eq!(rt; kind_in(&both, b"c@1"), c, "c@1: {mask} {rows} {other}");
                let d = plain_kind(rows / 9 % 3, other / 9 % 3, is_set(mask, 3));
                assert_eq!(rt; kind_in(&both, b"d"), d, "d: {mask} {rows} {other}");
            }
        }
    }
    Ok(())
}

// The spans of a layer are known to be in form.
fn is_hidden(layer: &Layer, key: &Key) -> bool {
    covers(layer.dels(), key)
}

#[test]
fn halving_finds_what_a_scan_finds(rt: HostRuntime) -> Result<(), Fail> {
    let alloc = rt.alloc();
    for mask in 0..32u32 {
        let layer = layer_of(alloc, mask, 0, b"")?;
        for place in 0..5 {
            let key = Key::new(alloc, ENDS[place])?;
            assert_eq!(rt;
                is_hidden(&layer, &key),
                is_set(mask, place),
                "{mask} at {place}"
            );
        }
        let past = Key::new(alloc, b"f@1")?;
        assert!(rt; !is_hidden(&layer, &past), "{mask}");
    }
    Ok(())
}

const TEXTS: [&[u8]; 9] = [b"0", b"1", b"2", b"3", b"4", b"5", b"6", b"7", b"8"];

// So many small layers, whose spans, rows and texts differ from place to place.
fn layers(alloc: Global, seed: u32, count: usize) -> Result<Vec<Layer>, Fail>
    requires { seed < 1000 }
{
    let mut list = Vec::new(alloc);
    for (place, text) in TEXTS.iter().enumerate() {
        if place < count {
            let number = seed + place as u32;
            let layer = layer_of(alloc, number * 7 % 32, number * 11 % 27, text)?;
            list.push(layer)?;
        }
    }
    Ok(list)
}

fn are_same_values(a: &Option<Bytes>, b: &Option<Bytes>) -> bool {
    match (a, b) {
        (Some(a), Some(b)) => a == b,
        (None, None) => true,
        _ => false,
    }
}

fn are_same_layers(a: &Layer, b: &Layer) -> bool {
    if !are_same(a.dels(), b.dels()) || a.rows().len() != b.rows().len() {
        return false;
    }
    for (row, other) in a.rows().iter().zip(b.rows()) {
        if row.key != other.key || !are_same_values(&row.value, &other.value) {
            return false;
        }
    }
    true
}

fn over_from_the_right(alloc: Global, layers: &[Layer]) -> Result<Layer, Fail> {
    let mut all = Layer::new(alloc, Vec::new(alloc), Vec::new(alloc))?;
    for layer in layers.iter().rev() {
        all = over(alloc, layer, &all)?;
    }
    Ok(all)
}

#[test]
fn a_list_is_put_over_one_another_as_from_the_right(rt: HostRuntime) -> Result<(), Fail> {
    let alloc = rt.alloc();
    for seed in 0..32u32 {
        for count in 0..10 {
            let list = layers(alloc, seed, count)?;
            let plain = over_from_the_right(alloc, &list)?;
            let all = over_all(alloc, List::from_vec(list))?;
            assert!(rt; are_same_layers(&all, &plain), "{seed}: {count} layers");
        }
    }
    Ok(())
}

fn moved(alloc: Global, newer: &Layer, older: &Layer) -> Result<Layer, Fail> {
    let layer = over_owned(alloc, newer.copy(alloc)?, older.copy(alloc)?)?;
    Ok(layer)
}

#[test]
fn four_layers_are_the_same_in_each_grouping(rt: HostRuntime) -> Result<(), Fail> {
    let alloc = rt.alloc();
    for seed in 0..64u32 {
        let list = layers(alloc, seed, 4)?;
        assert_eq!(rt; list.len(), 4);
        let plain = over_from_the_right(alloc, &list)?;
        let (a, b, c, d) = (&list[0], &list[1], &list[2], &list[3]);
        let front = moved(alloc, a, b)?;
        let mid = moved(alloc, b, c)?;
        let behind = moved(alloc, c, d)?;
        assert!(rt; are_same_layers(&front, &over(alloc, a, b)?), "{seed}");
        let groupings = [
            moved(alloc, &moved(alloc, &front, c)?, d)?,
            moved(alloc, &moved(alloc, a, &mid)?, d)?,
            moved(alloc, &front, &behind)?,
            moved(alloc, a, &moved(alloc, &mid, d)?)?,
            moved(alloc, a, &moved(alloc, b, &behind)?)?,
        ];
        for layer in &groupings {
            assert!(rt; are_same_layers(layer, &plain), "{seed}");
        }
    }
    Ok(())
}

#[test]
fn the_laws_hold() {
    laws::over_does_both();
    laws::one_normal_form();
}
