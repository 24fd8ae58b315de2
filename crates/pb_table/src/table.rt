ghost use Rattle.std.specs.Prelude.{◌≡◌, ◌∷◌, All, IfNone, IfSome, IfOk, slice_index};
ghost use Rattle.pb_rows.specs.Layer.{KeyLayer, IsLayer, layer_of, IsShortRow, IsFilled};
ghost use Rattle.pb_table.specs.Spelling.{IsFormat, table_spelling};
ghost use Rattle.pb_table.specs.Spells.{Spells};

use super::rows::{put_rows, read_rows};
use super::spans::{put_spans, read_spans};
use pb_keys::{Bytes, Span};
use pb_rows::{Layer, Row, RowsError};
use std::alloc::{AllocError, Global};

/// The first byte of format 1.
pub(crate) const FORMAT_1: u8 = 1;

/// The format of new tables.
pub const NEW_TABLE_FORMAT: u8 = FORMAT_1;

/// The bytes of a layer in this format (docs/FORMATS.md, "Tables").
pub fn write_table(alloc: Global, layer: &Layer, format: u8) -> Result<Bytes, AllocError>
    requires filled { IsFilled layer.now }
    requires known { IsFormat format }
    ensures ok { IfOk result (λ bytes. bytes ≡ table_spelling format layer.now) }
    ensures spells { IfOk result (λ bytes. Spells bytes layer.now) }
{
    match format {
        FORMAT_1 => write_format_1(alloc, layer),
        _ => unreachable!(),
    }
}

// The bytes of a layer in format 1.
fn write_format_1(alloc: Global, layer: &Layer) -> Result<Bytes, AllocError>
    requires filled { IsFilled layer.now }
    ensures ok { IfOk result (λ bytes. bytes ≡ table_spelling 1 layer.now) }
    ensures spells { IfOk result (λ bytes. Spells bytes layer.now) }
{
    let mut out = Vec::new(alloc);
    out.push(FORMAT_1)?;
    put_spans(alloc, &mut out, layer.dels())?;
    put_rows(alloc, &mut out, layer.rows())?;
    let bytes = Bytes::from_vec(alloc, out)?;
    Ok(bytes)
}

/// The layer that these bytes spell, in the format that the first of them names. None where they spell no layer, and so
/// are no table (docs/FORMATS.md, "Tables").
pub fn read_table(alloc: Global, bytes: &[u8]) -> Result<Option<Layer>, AllocError>
    ensures found { IfOk result (λ read. IfSome read (λ layer. Spells bytes.now layer)) }
    ensures none { IfOk result (λ read. IfNone read ((layer : KeyLayer) → Spells bytes.now layer → ⊥)) }

    // The same of a layer that the caller knows.
    ensures exact { IfOk result (λ read. (layer : KeyLayer) → Spells bytes.now layer → read ≡ Some layer) }

    // Another first byte is told before anything is read.
    ensures other { (IsFormat (slice_index bytes.now 0) → ⊥) → result ≡ Ok None }
{
    match bytes {
        [FORMAT_1, rest @ ..] => read_format_1(alloc, rest),
        _ => Ok(None),
    }
}

// The layer whose spans and rows these bytes are, which stand behind the format.
fn read_format_1(alloc: Global, from: &[u8]) -> Result<Option<Layer>, AllocError>
    ensures found { IfOk result (λ read. IfSome read (λ layer. Spells (FORMAT_1 ∷ from.now) layer)) }
    ensures none { IfOk result (λ read. IfNone read ((layer : KeyLayer) → Spells (FORMAT_1 ∷ from.now) layer → ⊥)) }
{
    let Some((dels, rest)) = read_spans(alloc, from)? else {
        return Ok(None);
    };
    let Some((rows, rest)) = read_rows(alloc, rest)? else {
        return Ok(None);
    };
    if !rest.is_empty() {
        return Ok(None);
    }
    let layer = filled_layer(alloc, dels, rows)?;
    Ok(layer)
}

// The layer of these spans and rows, if it is one and isn't empty.
fn filled_layer(alloc: Global, dels: Vec<Span>, rows: Vec<Row>) -> Result<Option<Layer>, AllocError>
    requires { All IsShortRow rows.items }
    ensures value { IfOk result (λ made. IfSome made (λ layer. layer ≡ layer_of dels.items rows.items)) }
    ensures in_form { IfOk result (λ made. IfSome made (λ layer. IsLayer layer)) }
    ensures filled { IfOk result (λ made. IfSome made (λ layer. IsFilled layer)) }
    ensures none { IfOk result (λ made. IfNone made (IsLayer (layer_of dels.items rows.items)
        → IsFilled (layer_of dels.items rows.items) → ⊥)) }
{
    if dels.is_empty() && rows.is_empty() {
        return Ok(None);
    }
    match Layer::new(alloc, dels, rows) {
        Ok(layer) => Ok(Some(layer)),
        Err(RowsError::BadDels | RowsError::BadRow(_)) => Ok(None),
        Err(RowsError::NoMemory) => Err(AllocError),
    }
}
