ghost use Rattle.std.specs.Prelude.{ℕ, ◌≡◌, ◌<◌, ◌^◌, ◌++◌, List, Option, All, IfNone, IfSome, IfOk, OnOk, length};
ghost use Rattle.pb_keys.specs.Value.{IsValue};
ghost use Rattle.pb_rows.specs.Layer.{KeyRow};
ghost use Rattle.pb_table.specs.Spelling.{counted, value_spelling, row_spelling};
ghost use Rattle.pb_table.specs.Spells.{IsTableRow};

use pb_bytes::{put_field, put_varint, split_field, split_varint};
use pb_keys::{Bytes, Key, MAX_VALUE};
use pb_rows::Row;
use std::alloc::{AllocError, Global};

/// The byte behind the key of a deleted row, and the one in front of a value.
const DELETED: u8 = 0;

const VALUE: u8 = 1;

/// Appends the number of the rows and each row.
pub(crate) fn put_rows(alloc: Global, out: &mut Vec<u8>, rows: &[Row]) -> Result<(), AllocError>
    ensures ok { OnOk result (out.new.items ≡ out.old.items ++ counted row_spelling rows.now) }
{
    put_varint(alloc, out, rows.len() as u64)?;
    for row in rows {
        put_row(alloc, out, row)?;
    }
    Ok(())
}

fn put_row(alloc: Global, out: &mut Vec<u8>, row: &Row) -> Result<(), AllocError>
    ensures ok { OnOk result (out.new.items ≡ out.old.items ++ row_spelling row.now) }
{
    put_field(alloc, out, row.key.as_bytes())?;
    match &row.value {
        None => out.push(DELETED)?,
        Some(value) => {
            out.push(VALUE)?;
            put_field(alloc, out, value.as_slice())?;
        }
    }
    Ok(())
}

/// The rows whose number and spellings begin these bytes, and what stands behind them.
pub(crate) fn read_rows(alloc: Global, from: &[u8]) -> Result<Option<(Vec<Row>, &[u8])>, AllocError>
    ensures found { IfOk result (λ read. IfSome read (λ found. from.now ≡ counted row_spelling found.0.items ++ found.1.now)) }
    ensures in_form { IfOk result (λ read. IfSome read (λ found. All IsTableRow found.0.items)) }
    ensures none { IfOk result (λ read. IfNone read ((rows : List KeyRow) (rest : List ℕ)
        → All IsTableRow rows → length rows < 2 ^ 64 → from.now ≡ counted row_spelling rows ++ rest → ⊥)) }
{
    let Some((count, mut rest)) = split_varint(from) else {
        return Ok(None);
    };
    // No room is reserved for the number that the bytes claim.
    let mut rows = Vec::new(alloc);
    for _ in 0..count {
        let Some((row, behind)) = read_row(alloc, rest)? else {
            return Ok(None);
        };
        rows.push(row)?;
        rest = behind;
    }
    Ok(Some((rows, rest)))
}

fn read_row(alloc: Global, from: &[u8]) -> Result<Option<(Row, &[u8])>, AllocError>
    ensures found { IfOk result (λ read. IfSome read (λ found. from.now ≡ row_spelling found.0 ++ found.1.now)) }
    ensures in_form { IfOk result (λ read. IfSome read (λ found. IsTableRow found.0)) }
    ensures none { IfOk result (λ read. IfNone read ((row : KeyRow) (rest : List ℕ)
        → IsTableRow row → from.now ≡ row_spelling row ++ rest → ⊥)) }
{
    let Some((key, rest)) = split_field(from) else {
        return Ok(None);
    };
    let Some(key) = Key::read(alloc, key)? else {
        return Ok(None);
    };
    let Some((value, rest)) = read_value(alloc, rest)? else {
        return Ok(None);
    };
    Ok(Some((Row { key, value }, rest)))
}

fn read_value(alloc: Global, from: &[u8]) -> Result<Option<(Option<Bytes>, &[u8])>, AllocError>
    ensures found { IfOk result (λ read. IfSome read (λ found. from.now ≡ value_spelling found.0 ++ found.1.now)) }
    ensures short { IfOk result (λ read. IfSome read (λ found. IfSome found.0 IsValue)) }
    ensures none { IfOk result (λ read. IfNone read ((value : Option (List ℕ)) (rest : List ℕ)
        → IfSome value IsValue → from.now ≡ value_spelling value ++ rest → ⊥)) }
{
    match from {
        [DELETED, rest @ ..] => Ok(Some((None, rest))),
        [VALUE, rest @ ..] => {
            let Some((value, rest)) = split_field(rest) else {
                return Ok(None);
            };
            if value.len() > MAX_VALUE {
                return Ok(None);
            }
            let value = Bytes::new(alloc, value)?;
            Ok(Some((Some(value), rest)))
        }
        _ => Ok(None),
    }
}
