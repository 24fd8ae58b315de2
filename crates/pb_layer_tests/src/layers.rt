ghost use Rattle.std.specs.Prelude.{IfOk, All};
ghost use Rattle.pb_rows.specs.Layer.{IsShortRow};

use pb_keys::{Key, KeyError, Span};
use pb_rows::{Found, Layer, Layers, Row, RowsError, laws};
use std::alloc::Global;
use std::test::Fail;

pub(crate) fn add_short(rows: &mut Vec<Row>, row: Row) -> Result<(), Fail>
    requires { All IsShortRow rows.old.items }
    ensures { All IsShortRow rows.new.items }
{
    if row.is_short() {
        rows.push(row)?;
    }
    Ok(())
}

fn bytes_of<'a>(text: Option<&'a str>) -> Option<&'a [u8]> {
    match text {
        None => None,
        Some(text) => Some(text.as_bytes()),
    }
}

fn rows_of(alloc: Global, texts: &[(&str, Option<&str>)]) -> Result<Vec<Row>, Fail>
    ensures { IfOk result (λ rows. All IsShortRow rows.items) }
{
    let mut rows = Vec::new(alloc);
    for (key, text) in texts {
        let row = Row::of(alloc, key.as_bytes(), bytes_of(*text))?;
        add_short(&mut rows, row)?;
    }
    Ok(rows)
}

fn dels_of(alloc: Global, ends: &[(&str, &str)]) -> Result<Vec<Span>, Fail> {
    let mut dels = Vec::new(alloc);
    for (lo, hi) in ends {
        dels.push(Span::new(alloc, lo.as_bytes(), hi.as_bytes())?)?;
    }
    Ok(dels)
}

pub(crate) fn layer_of(
    alloc: Global,
    ends: &[(&str, &str)],
    texts: &[(&str, Option<&str>)],
) -> Result<Layer, Fail> {
    let dels = dels_of(alloc, ends)?;
    let rows = rows_of(alloc, texts)?;
    let layer = Layer::new(alloc, dels, rows)?;
    Ok(layer)
}

// A row first, by looking at each, and else a span, by looking at each.
fn plain_get<'a>(layer: &'a Layer, key: &Key) -> Found<'a> {
    for row in layer.rows() {
        if row.key == *key {
            return match &row.value {
                Some(bytes) => Found::Value(bytes.as_slice()),
                None => Found::Deleted,
            };
        }
    }
    for span in layer.dels() {
        if span.contains(key) {
            return Found::Deleted;
        }
    }
    Found::Absent
}

// The refusal of these spans and rows.
fn refusal(
    alloc: Global,
    ends: &[(&str, &str)],
    texts: &[(&str, Option<&str>)],
) -> Result<Option<RowsError>, Fail> {
    let dels = dels_of(alloc, ends)?;
    let rows = rows_of(alloc, texts)?;
    match Layer::new(alloc, dels, rows) {
        Ok(_) => Ok(None),
        Err(error) => Ok(Some(error)),
    }
}

// Whether the layer and the plain scan answer alike.
fn agrees(alloc: Global, layer: &Layer, text: &str) -> Result<bool, Fail> {
    let key = Key::new(alloc, text.as_bytes())?;
    let same = layer.get(&key) == plain_get(layer, &key);
    Ok(same)
}

fn has_hull(alloc: Global, layer: &Layer, lo: &str, hi: &str) -> Result<bool, Fail> {
    match layer.hull(alloc)? {
        Some(hull) => Ok(hull.lo() == lo.as_bytes() && hull.hi() == hi.as_bytes()),
        None => Ok(false),
    }
}

#[test]
fn layers_out_of_order_are_refused(rt: HostRuntime) -> Result<(), Fail> {
    let alloc = rt.alloc();
    for ends in [("b", "d"), ("a", "b"), ("c", "d")] {
        let found = refusal(alloc, &[("b", "c"), ends], &[("a", None)])?;
        assert_eq!(rt; found, Some(RowsError::BadDels), "{ends:?}");
    }
    for last in ["b@1", "b", "a!", "a"] {
        let found = refusal(
            alloc,
            &[("a", "b"), ("b\0", "c")],
            &[("a!", Some("")), ("b@1", None), (last, None)],
        )?;
        assert_eq!(rt; found, Some(RowsError::BadRow(2)), "{last}");
    }
    Ok(())
}

#[test]
fn layers_are_read_as_a_plain_scan_does(rt: HostRuntime) -> Result<(), Fail> {
    let alloc = rt.alloc();
    let layer = layer_of(
        alloc,
        &[("b", "c"), ("d", "f")],
        &[
            ("a", Some("1")),
            ("b@2", Some("2")),
            ("b!", None),
            ("d", Some("3")),
            ("g", None),
        ],
    )?;
    let copy = layer.copy(alloc)?;
    assert_eq!(rt; copy.rows().len(), 5);
    for text in [
        "!", "a", "a@1", "b", "b@2", "b@3", "b!", "c", "c@9", "d", "d@1", "ez", "f", "g", "h",
    ] {
        assert!(rt; agrees(alloc, &layer, text)?, "{text}");
        assert!(rt; agrees(alloc, &copy, text)?, "{text} in the copy");
    }
    let own = Key::new(alloc, b"b@2")?;
    assert!(rt; layer.get(&own) == Found::Value(b"2".as_slice()));
    Ok(())
}

#[test]
fn the_hull_ends_above_the_last_prefix(rt: HostRuntime) -> Result<(), Fail> {
    let alloc = rt.alloc();
    let row = layer_of(alloc, &[], &[("b@3", None)])?;
    assert!(rt; has_hull(alloc, &row, "b", "b\0")?);
    let dels = layer_of(alloc, &[("b", "c"), ("d", "e")], &[])?;
    assert!(rt; has_hull(alloc, &dels, "b", "e")?);
    let both = layer_of(alloc, &[("b", "c")], &[("a@1", Some("1")), ("cz@2", None)])?;
    assert!(rt; has_hull(alloc, &both, "a", "cz\0")?);
    let empty = layer_of(alloc, &[], &[])?;
    assert!(rt; empty.hull(alloc)?.is_none());
    Ok(())
}

#[test]
fn a_row_is_its_key_and_value(rt: HostRuntime) -> Result<(), Fail> {
    let row = Row::of(rt.alloc(), b"a@1", Some(b"1".as_slice()))?;
    assert_eq!(rt; row.key.as_bytes(), b"a@1".as_slice());
    assert!(rt; row.value.is_some());
    let deleted = Row::of(rt.alloc(), b"a", None)?;
    assert!(rt; deleted.value.is_none());
    for bad in ["", "@", "@a"] {
        match Row::of(rt.alloc(), bad.as_bytes(), None) {
            Ok(_) => assert!(rt; false, "{bad}"),
            Err(error) => assert_eq!(rt; error, KeyError::BadKey, "{bad}"),
        }
    }
    Ok(())
}

#[test]
fn the_parts_are_those_that_were_given(rt: HostRuntime) -> Result<(), Fail> {
    let layer = layer_of(rt.alloc(), &[("b", "c")], &[("a", None), ("d", Some("1"))])?;
    let layers: Layers = Layers::from_vec(vec![in rt.alloc(); layer]?);
    for layer in layers.into_vec() {
        let (dels, rows) = layer.into_parts();
        assert_eq!(rt; dels.len(), 1);
        assert_eq!(rt; rows.len(), 2);
        for (text, covered) in [("a", false), ("b@1", true), ("c", false)] {
            let key = Key::new(rt.alloc(), text.as_bytes())?;
            assert_eq!(rt;
                dels.iter().any(|span| span.contains(&key)),
                covered,
                "{text}"
            );
        }
    }
    Ok(())
}

#[test]
fn the_laws_can_be_called(_rt: HostRuntime) -> Result<(), Fail> {
    laws::applied_by_key();
    laws::newer_first();
    laws::bounded_by_key();
    laws::only_the_empty_layer_has_no_hull();
    laws::changed_by_key();
    laws::viewed_by_key();
    laws::mapped_by_key();
    laws::mapped_keys_have_these_parts();
    laws::a_plain_view_keeps_limits();
    laws::views_keep_layers();
    laws::a_hull_holds_its_layer();
    laws::a_cut_layer_has_its_hull_within();
    laws::filled();
    laws::silent_where_untouched();
    laws::untouched_commutes();
    Ok(())
}
