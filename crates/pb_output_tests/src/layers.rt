ghost use Rattle.std.specs.Prelude.{IfOk, All};
ghost use Rattle.pb_rows.specs.Layer.{IsShortRow};

use pb_keys::{Bytes, Key, Span};
use pb_rows::{Layer, Row};
use std::alloc::Global;
use std::test::Fail;

/// Adds a row whose value has so many bytes, or a deleted one.
pub(crate) fn add_row(
    alloc: Global,
    rows: &mut Vec<Row>,
    key: &[u8],
    len: Option<usize>,
) -> Result<(), Fail>
    requires { All IsShortRow rows.old.items }
    ensures { All IsShortRow rows.new.items }
{
    let key = Key::new(alloc, key)?;
    let value = value_of(alloc, len)?;
    let row = Row { key, value };
    if !row.is_short() {
        return Err(Fail::from("too long a value"));
    }
    rows.push(row)?;
    Ok(())
}

fn value_of(alloc: Global, len: Option<usize>) -> Result<Option<Bytes>, Fail> {
    match len {
        None => Ok(None),
        Some(len) => {
            let bytes = vec![in alloc; b'v'; len]?;
            let value = Bytes::from_vec(alloc, bytes)?;
            Ok(Some(value))
        }
    }
}

fn rows_of(alloc: Global, texts: &[(&str, Option<usize>)]) -> Result<Vec<Row>, Fail>
    ensures { IfOk result (λ rows. All IsShortRow rows.items) }
{
    let mut rows = Vec::new(alloc);
    for (key, len) in texts {
        add_row(alloc, &mut rows, key.as_bytes(), *len)?;
    }
    Ok(rows)
}

fn dels_of(alloc: Global, ends: &[(&str, &str)]) -> Result<Vec<Span>, Fail> {
    let mut dels = Vec::new(alloc);
    for (lo, hi) in ends {
        dels.push(Span::new(alloc, lo.as_bytes(), hi.as_bytes())?)?;
    }
    Ok(dels)
}

/// The layer of these deletions, and of these keys with the lengths of their values.
pub(crate) fn layer_of(
    alloc: Global,
    ends: &[(&str, &str)],
    texts: &[(&str, Option<usize>)],
) -> Result<Layer, Fail> {
    let dels = dels_of(alloc, ends)?;
    let rows = rows_of(alloc, texts)?;
    let layer = Layer::new(alloc, dels, rows)?;
    Ok(layer)
}

fn put_del(text: &mut Vec<u8>, lo: &[u8], hi: &[u8]) -> Result<(), Fail> {
    text.extend_from_slice(lo)?;
    text.extend_from_slice(b"..")?;
    text.extend_from_slice(hi)?;
    text.push(b' ')?;
    Ok(())
}

// A deleted row has a sign behind its key.
fn put_row(text: &mut Vec<u8>, row: &Row) -> Result<(), Fail> {
    text.extend_from_slice(row.key.as_bytes())?;
    if row.value.is_none() {
        text.push(b'-')?;
    }
    text.push(b' ')?;
    Ok(())
}

/// Its deletions and then its keys, with a space behind each.
pub(crate) fn put_layer(text: &mut Vec<u8>, layer: &Layer) -> Result<(), Fail> {
    for del in layer.dels() {
        put_del(text, del.lo(), del.hi())?;
    }
    for row in layer.rows() {
        put_row(text, row)?;
    }
    Ok(())
}

// What of the span lies within the bounds.
fn put_del_within(text: &mut Vec<u8>, del: &Span, lo: &[u8], hi: &[u8]) -> Result<(), Fail> {
    let from = lo.max(del.lo());
    let to = hi.min(del.hi());
    if from < to {
        put_del(text, from, to)?;
    }
    Ok(())
}

/// What of the layer lies within the bounds, by looking at each deletion and row.
pub(crate) fn put_within(
    text: &mut Vec<u8>,
    layer: &Layer,
    lo: &[u8],
    hi: &[u8],
) -> Result<(), Fail> {
    for del in layer.dels() {
        put_del_within(text, del, lo, hi)?;
    }
    for row in layer.rows() {
        let prefix = row.key.prefix();
        if lo <= prefix && prefix < hi {
            put_row(text, row)?;
        }
    }
    Ok(())
}

/// A number's digits.
pub(crate) fn digits(number: u32) -> [u8; 8] {
    let mut digits = [b'0'; 8];
    let mut rest = number;
    for place in 0..8 {
        digits[7 - place] = b'0' + (rest % 10) as u8;
        rest /= 10;
    }
    digits
}

fn add_span(alloc: Global, dels: &mut Vec<Span>, lo: u32) -> Result<(), Fail> {
    let span = Span::new(alloc, &digits(lo), &digits(lo.saturating_add(5)))?;
    dels.push(span)?;
    Ok(())
}

// Over the first five of each ten numbers.
fn many_dels(alloc: Global, count: u32) -> Result<Vec<Span>, Fail> {
    let mut dels = Vec::new(alloc);
    for number in 0..count {
        add_span(alloc, &mut dels, number.saturating_mul(10))?;
    }
    Ok(dels)
}

/// So many rows, whose keys are the digits of rising numbers and whose values have so many bytes, and so many deletions.
pub(crate) fn numbered(alloc: Global, count: u32, dels: u32, len: usize) -> Result<Layer, Fail> {
    let mut rows = Vec::new(alloc);
    for number in 0..count {
        add_row(alloc, &mut rows, &digits(number), Some(len))?;
    }
    let dels = many_dels(alloc, dels)?;
    let layer = Layer::new(alloc, dels, rows)?;
    Ok(layer)
}
