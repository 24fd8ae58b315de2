// What a table shows through bounds alone, beside pb_virtual, by which readers ask.
use crate::shown::{Shown, shown_of};
use pb_keys::{Bytes, Span, View};
use pb_rows::{Layer, Row};
use pb_table::read_table;
use pb_virtual::VirtualTable;
use std::alloc::Global;
use std::test::Fail;

// `a` deleted, `a@1` to no bytes, `b` to `1` and `c` to `22`.
const ROWS: &[u8] = b"\x01\0\x04\x01a\0\x03a@1\x01\0\x01b\x01\x011\x01c\x01\x0222";
// The spans from `a` to `b` and from `ba` to `d`.
const DELS: &[u8] = b"\x01\x02\x01a\x01b\x02ba\x01d\0";

const BOTH: &[u8] =
    b"\x01\x02\x01a\x01b\x02ba\x01d\x04\x01a\0\x03a@1\x01\0\x01b\x01\x011\x01c\x01\x0222";

const ENDS: [&str; 8] = ["0", "a", "a!", "b", "bb", "c\0", "d", "e"];

fn put_dels(text: &mut Vec<u8>, dels: &[Span]) -> Result<(), Fail> {
    for del in dels {
        text.extend_from_slice(del.lo())?;
        text.extend_from_slice(b"..")?;
        text.extend_from_slice(del.hi())?;
        text.push(b' ')?;
    }
    Ok(())
}

fn put_row(text: &mut Vec<u8>, row: &Row) -> Result<(), Fail> {
    text.extend_from_slice(row.key.as_bytes())?;
    if let Some(value) = &row.value {
        text.push(b'=')?;
        text.extend_from_slice(value.as_slice())?;
    }
    text.push(b' ')?;
    Ok(())
}

fn text_of(alloc: Global, dels: &[Span], rows: &[Row]) -> Result<Vec<u8>, Fail> {
    let mut text = Vec::new(alloc);
    put_dels(&mut text, dels)?;
    for row in rows {
        put_row(&mut text, row)?;
    }
    Ok(text)
}

// What the table of these bytes shows.
fn of_table(alloc: Global, lo: &str, hi: &str, bytes: &[u8]) -> Result<Option<Layer>, Fail> {
    let bounds = Span::new(alloc, lo.as_bytes(), hi.as_bytes())?;
    // So the proof knows that the bounds are in form.
    let _lo = bounds.lo();
    let prefix = Bytes::new(alloc, b"")?;
    let suffix = Bytes::new(alloc, b"")?;
    let table = VirtualTable::new(View {
        bounds,
        prefix,
        suffix,
    });
    let layer = table.layer(alloc, bytes)?;
    Ok(layer)
}

// The same by the slow view.
fn of_layer(alloc: Global, lo: &str, hi: &str, bytes: &[u8]) -> Result<Option<Shown>, Fail> {
    let layer = read_table(alloc, bytes)?.ok_or("no table")?;
    let bounds = Span::new(alloc, lo.as_bytes(), hi.as_bytes())?;
    let prefix = Bytes::new(alloc, b"")?;
    let suffix = Bytes::new(alloc, b"")?;
    let view = View {
        bounds,
        prefix,
        suffix,
    };
    let shown = shown_of(alloc, &view, &layer)?;
    Ok(shown)
}

fn is_shown_alike(alloc: Global, lo: &str, hi: &str, bytes: &[u8]) -> Result<bool, Fail> {
    let layer = of_table(alloc, lo, hi, bytes)?.ok_or("no table")?;
    let shown = of_layer(alloc, lo, hi, bytes)?.ok_or("not within limits")?;
    let found = text_of(alloc, layer.dels(), layer.rows())?;
    let plain = text_of(alloc, &shown.dels, &shown.rows)?;
    Ok(found.as_slice() == plain.as_slice())
}

fn is_shown_alike_from(alloc: Global, lo: &str, bytes: &[u8]) -> Result<bool, Fail> {
    for hi in ENDS {
        if lo.as_bytes() < hi.as_bytes() && !is_shown_alike(alloc, lo, hi, bytes)? {
            return Ok(false);
        }
    }
    Ok(true)
}

#[test]
fn bounds_show_what_a_virtual_table_does(rt: HostRuntime) -> Result<(), Fail> {
    for lo in ENDS {
        for bytes in [ROWS, DELS, BOTH] {
            assert!(rt; is_shown_alike_from(rt.alloc(), lo, bytes)?, "{lo}");
        }
    }
    Ok(())
}
