ghost use Rattle.std.specs.Prelude.{◌≡◌, ◌++◌, ◌∷◌, map, nat_eq, All, IfNone, IfOk, IfSome};
ghost use Rattle.std.specs.Cmp.Lexicographic.{pointwise};
ghost use Rattle.std.specs.List.{filter, list_any};
ghost use Rattle.pb_folder_reader.specs.Shown.{are_own_keys};
ghost use Rattle.pb_keys.specs.Key.{IsKey};
ghost use Rattle.pb_keys.specs.Span.{IsSpan, holds_key};
ghost use Rattle.pb_rows.specs.Viewed.{cut_to, MapsWithin, mapped_key, mapped_row, mapped_span, viewed, with_suffix};

use pb_keys::{Bytes, Key, KeyError, Span, SpanError, View};
use pb_rangedel::cut;
use pb_rows::{Layer, Row};
use std::alloc::{AllocError, Global};
use std::marker::Model;

/// What a table shows: deletions, and rows, which come first.
#[derive(Debug, Drop)]
pub struct Shown {
    pub dels: Vec<Span>,
    pub rows: Vec<Row>,
}

impl Model for Shown {
    ghost use Rattle.pb_rows.specs.Layer.{KeyLayer, layer_of};

    ghost Value = { KeyLayer };

    ghost view = { λ s. layer_of s.dels.items s.rows.items };
}

/// What the view shows of a layer. None exactly where a key or an end leaves its limits, or two keys become one.
pub(crate) fn shown_of(
    alloc: Global,
    view: &View,
    layer: &Layer,
) -> Result<Option<Shown>, AllocError>
    ensures some { IfOk result (λ found. IfSome found (λ shown. shown ≡ viewed view.now layer.now)) }
    ensures within { IfOk result (λ found. IfSome found (λ shown. MapsWithin view.now layer.now)) }
    ensures none { IfOk result (λ found. IfNone found (MapsWithin view.now layer.now → ⊥)) }
{
    let Some(dels) = mapped_dels(alloc, view, layer.dels())? else {
        return Ok(None);
    };
    let Some(rows) = mapped_rows(alloc, view, layer.rows())? else {
        return Ok(None);
    };
    if !have_own_keys(&rows) {
        return Ok(None);
    }
    let shown = within(alloc, &view.bounds, dels, rows)?;
    Ok(Some(shown))
}

fn mapped_dels(alloc: Global, view: &View, dels: &[Span]) -> Result<Option<Vec<Span>>, AllocError>
    ensures some { IfOk result (λ found. IfSome found (λ mapped. mapped.items ≡ map (mapped_span view.now) dels.now)) }
    ensures in_form { IfOk result (λ found. IfSome found (λ mapped. All (λ span. IsSpan (mapped_span view.now span)) dels.now)) }
    ensures none { IfOk result (λ found. IfNone found (All (λ span. IsSpan (mapped_span view.now span)) dels.now → ⊥)) }
{
    let mut mapped = Vec::new(alloc);
    for span in dels {
        let Some(span) = mapped_del(alloc, view, span)? else {
            return Ok(None);
        };
        mapped.push(span)?;
    }
    Ok(Some(mapped))
}

fn mapped_del(alloc: Global, view: &View, span: &Span) -> Result<Option<Span>, AllocError>
    ensures some { IfOk result (λ found. IfSome found (λ mapped. mapped ≡ mapped_span view.now span.now)) }
    ensures in_form { IfOk result (λ found. IfSome found (λ mapped. IsSpan (mapped_span view.now span.now))) }
    ensures none { IfOk result (λ found. IfNone found (IsSpan (mapped_span view.now span.now) → ⊥)) }
{
    let lo = joined(alloc, view.prefix.as_slice(), span.lo())?;
    let hi = joined(alloc, view.prefix.as_slice(), span.hi())?;
    match Span::new(alloc, &lo, &hi) {
        Ok(span) => Ok(Some(span)),
        Err(SpanError::BadSpan) => Ok(None),
        Err(SpanError::NoMemory) => Err(AllocError),
    }
}

fn mapped_rows(alloc: Global, view: &View, rows: &[Row]) -> Result<Option<Vec<Row>>, AllocError>
    ensures some { IfOk result (λ found. IfSome found (λ mapped. mapped.items ≡ map (mapped_row view.now) rows.now)) }
    ensures in_form { IfOk result (λ found. IfSome found (λ mapped. All (λ row. IsKey (mapped_key view.now row.key)) rows.now)) }
    ensures none { IfOk result (λ found. IfNone found (All (λ row. IsKey (mapped_key view.now row.key)) rows.now → ⊥)) }
{
    let mut mapped = Vec::new(alloc);
    for row in rows {
        let Some(row) = row_of(alloc, view, row)? else {
            return Ok(None);
        };
        mapped.push(row)?;
    }
    Ok(Some(mapped))
}

fn row_of(alloc: Global, view: &View, row: &Row) -> Result<Option<Row>, AllocError>
    ensures some { IfOk result (λ found. IfSome found (λ mapped. mapped ≡ mapped_row view.now row.now)) }
    ensures in_form { IfOk result (λ found. IfSome found (λ mapped. IsKey (mapped_key view.now row.now.key))) }
    ensures none { IfOk result (λ found. IfNone found (IsKey (mapped_key view.now row.now.key) → ⊥)) }
{
    let bytes = mapped_bytes(alloc, view, &row.key)?;
    let Some(key) = key_of(alloc, &bytes)? else {
        return Ok(None);
    };
    let copy = row.copy(alloc)?;
    Ok(Some(Row {
        key,
        value: copy.value,
    }))
}

fn key_of(alloc: Global, bytes: &[u8]) -> Result<Option<Key>, AllocError>
    ensures some { IfOk result (λ found. IfSome found (λ key. key ≡ bytes.now)) }
    ensures in_form { IfOk result (λ found. IfSome found (λ key. IsKey bytes.now)) }
    ensures none { IfOk result (λ found. IfNone found (IsKey bytes.now → ⊥)) }
{
    match Key::new(alloc, bytes) {
        Ok(key) => Ok(Some(key)),
        Err(KeyError::BadKey) => Ok(None),
        Err(KeyError::NoMemory) => Err(AllocError),
    }
}

fn mapped_bytes(alloc: Global, view: &View, key: &Key) -> Result<Vec<u8>, AllocError>
    ensures { IfOk result (λ bytes. bytes.items ≡ mapped_key view.now key.now) }
{
    let suffix = view.suffix.as_slice();
    let own = suffixed(alloc, suffix, key)?;
    let bytes = joined(alloc, view.prefix.as_slice(), &own)?;
    Ok(bytes)
}

/// The key's bytes, with this suffix in the place of its own, if it isn't empty.
fn suffixed(alloc: Global, suffix: &[u8], key: &Key) -> Result<Vec<u8>, AllocError>
    ensures { IfOk result (λ bytes. bytes.items ≡ with_suffix suffix.now key.now) }
{
    if suffix.is_empty() {
        let bytes = Vec::from_slice(alloc, key.as_bytes())?;
        return Ok(bytes);
    }
    let bytes = joined(alloc, key.prefix(), suffix)?;
    Ok(bytes)
}

fn joined(alloc: Global, front: &[u8], back: &[u8]) -> Result<Vec<u8>, AllocError>
    ensures { IfOk result (λ bytes. bytes.items ≡ front.now ++ back.now) }
{
    let mut bytes = Vec::from_slice(alloc, front)?;
    bytes.extend_from_slice(back)?;
    Ok(bytes)
}

fn have_own_keys(rows: &[Row]) -> bool
    ensures { result ≡ are_own_keys rows.now }
{
    for (at, row) in rows.iter().enumerate() {
        if has_key(&rows[at + 1..], &row.key) {
            return false;
        }
    }
    true
}

fn has_key(rows: &[Row], key: &Key) -> bool
    ensures { result ≡ list_any (λ row. pointwise nat_eq row.key key.now) rows.now }
{
    rows.iter().any(|row| row.key == *key)
}

/// The parts of the deletions within bounds, and the rows whose keys they hold.
fn within(
    alloc: Global,
    bounds: &Span,
    dels: Vec<Span>,
    rows: Vec<Row>,
) -> Result<Shown, AllocError>
    ensures dels { IfOk result (λ shown. shown.dels ≡ cut_to bounds.now dels.items) }
    ensures rows { IfOk result (λ shown. shown.rows ≡ filter (λ row. holds_key bounds.now row.key) rows.items) }
{
    let dels = cut(alloc, &dels, bounds)?;
    let mut rows = rows;
    keep_held(&mut rows, bounds);
    Ok(Shown { dels, rows })
}

fn keep_held(rows: &mut Vec<Row>, bounds: &Span)
    ensures { rows.new.items ≡ filter (λ row. holds_key bounds.now row.key) rows.old.items }
{
    rows.retain(|row| bounds.contains(&row.key));
}
