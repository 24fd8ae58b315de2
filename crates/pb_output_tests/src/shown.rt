use crate::layers::{layer_of, put_layer};
use pb_keys::{Bytes, Span, View};
use pb_rows::Layer;
use pb_table::{NEW_TABLE_FORMAT, write_table};
use pb_virtual::VirtualTable;
use std::alloc::Global;
use std::test::Fail;

// Bounds of the table `three`, and what it shows through them.
const ROWS: [(&str, &str, &str); 6] = [
    ("a", "z", "a..d a b c "),
    ("b", "c", "b..c b "),
    ("c", "c\0", "c..c\0 c "),
    ("d", "e", ""),
    ("a", "a\0", "a..a\0 a "),
    ("0", "a", ""),
];

/// The table of a layer that isn't empty.
pub(crate) fn table_of(alloc: Global, layer: &Layer) -> Result<Bytes, Fail> {
    let dels = layer.dels();
    let rows = layer.rows();
    if dels.is_empty() && rows.is_empty() {
        return Err(Fail::from("an empty layer"));
    }
    let bytes = write_table(alloc, layer, NEW_TABLE_FORMAT)?;
    Ok(bytes)
}

/// What the table with these bounds shows of the bytes.
pub(crate) fn shown(
    alloc: Global,
    lo: &[u8],
    hi: &[u8],
    bytes: &[u8],
) -> Result<Option<Layer>, Fail> {
    let bounds = Span::new(alloc, lo, hi)?;
    // So the proof knows that the bounds are in form.
    let _lo = bounds.lo();
    let prefix = Bytes::new(alloc, b"")?;
    let suffix = Bytes::new(alloc, b"")?;
    let table = VirtualTable::new(View {
        bounds,
        prefix,
        suffix,
    });
    let layer = table.layer(alloc, bytes)?;
    Ok(layer)
}

/// Whether these are the layer's deletions and keys.
pub(crate) fn has_text(alloc: Global, layer: &Layer, text: &[u8]) -> Result<bool, Fail> {
    let mut found = Vec::new(alloc);
    put_layer(&mut found, layer)?;
    Ok(found.as_slice() == text)
}

fn is_shown(alloc: Global, lo: &str, hi: &str, bytes: &[u8], text: &str) -> Result<bool, Fail> {
    match shown(alloc, lo.as_bytes(), hi.as_bytes(), bytes)? {
        None => Ok(false),
        Some(layer) => has_text(alloc, &layer, text.as_bytes()),
    }
}

fn is_no_table(alloc: Global, lo: &str, hi: &str, bytes: &[u8]) -> Result<bool, Fail> {
    let found = shown(alloc, lo.as_bytes(), hi.as_bytes(), bytes)?;
    Ok(found.is_none())
}

// The table with three rows and a deletion over them.
fn three(alloc: Global) -> Result<Bytes, Fail> {
    let value = Some(1);
    let rows = [("a", value), ("b", value), ("c", value)];
    let layer = layer_of(alloc, &[("a", "d")], &rows)?;
    table_of(alloc, &layer)
}

#[test]
fn a_table_shows_what_lies_within_its_bounds(rt: HostRuntime) -> Result<(), Fail> {
    let bytes = three(rt.alloc())?;
    for (lo, hi, text) in ROWS {
        assert!(rt;
            is_shown(rt.alloc(), lo, hi, bytes.as_slice(), text)?,
            "{lo:?}"
        );
    }
    Ok(())
}

// Whether none of the bytes' beginnings is a table.
fn is_whole_alone(alloc: Global, lo: &str, hi: &str, bytes: &[u8]) -> Result<bool, Fail> {
    for len in 0..bytes.len() {
        if !is_no_table(alloc, lo, hi, &bytes[..len])? {
            return Ok(false);
        }
    }
    Ok(true)
}

#[test]
fn bytes_that_are_cut_show_nothing(rt: HostRuntime) -> Result<(), Fail> {
    let bytes = three(rt.alloc())?;
    for (lo, hi, _) in ROWS {
        assert!(rt;
            is_whole_alone(rt.alloc(), lo, hi, bytes.as_slice())?,
            "{lo:?}"
        );
    }
    Ok(())
}

fn with_last(alloc: Global, bytes: &[u8], last: u8) -> Result<Vec<u8>, Fail> {
    let mut longer = Vec::from_slice(alloc, bytes)?;
    longer.push(last)?;
    Ok(longer)
}

#[test]
fn a_byte_more_behind_shows_nothing(rt: HostRuntime) -> Result<(), Fail> {
    let bytes = three(rt.alloc())?;
    for last in 0..=u8::MAX {
        let longer = with_last(rt.alloc(), bytes.as_slice(), last)?;
        assert!(rt; is_no_table(rt.alloc(), "a", "z", &longer)?, "{last}");
        assert!(rt; is_no_table(rt.alloc(), "d", "e", &longer)?, "{last}");
    }
    Ok(())
}
