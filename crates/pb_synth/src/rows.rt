ghost use Rattle.std.specs.Prelude.{◌≡◌, All, IfOk, length, map};
ghost use Rattle.std.specs.List.{filter};
ghost use Rattle.pb_keys.specs.Key.{IsKeyLength};
ghost use Rattle.pb_keys.specs.Span.{holds_key};
ghost use Rattle.pb_keys.specs.View.{IsMapping, IsView};
ghost use Rattle.pb_rows.specs.Layer.{Rise};
ghost use Rattle.pb_rows.specs.Viewed.{mapped_key, mapped_row as mapped_row_of};

use super::keys::mapped_within;
use super::order::is_below_end;
use pb_keys::{Bytes, View};
use pb_rows::Row;
use std::alloc::{AllocError, Global};

/// The rows that the view maps into its bounds, as they stood, by halving.
pub(crate) fn held_rows<'a>(view: &View, rows: &'a [Row]) -> &'a [Row]
    requires view { IsView view.now }
    requires rise { Rise rows.now }
    ensures { result.now ≡ filter (λ row. holds_key view.now.bounds (mapped_key view.now row.key)) rows.now }
{
    let prefix = view.prefix.as_slice();
    let lo = view.bounds.lo();
    let hi = view.bounds.hi();
    let from = rows.partition_point(|row| is_below_end(prefix, row.key.prefix(), lo));
    let to = rows.partition_point(|row| is_below_end(prefix, row.key.prefix(), hi));
    prove!(from <= to);
    &rows[from..to]
}

/// The rows as the view maps them.
pub(crate) fn mapped_rows(alloc: Global, view: &View, rows: &[Row]) -> Result<Vec<Row>, AllocError>
    requires mapping { IsMapping view.now }
    requires within { All (λ row. IsKeyLength (length (mapped_key view.now row.key))) rows.now }
    ensures ok { IfOk result (λ mapped. mapped.items ≡ map (mapped_row_of view.now) rows.now) }
{
    let mut room = Vec::new(alloc);
    let mut mapped = Vec::with_capacity(alloc, rows.len())?;
    for row in rows {
        let row = mapped_row(alloc, &mut room, view, row)?;
        mapped.push(row)?;
    }
    Ok(mapped)
}

fn mapped_row(alloc: Global, room: &mut Vec<u8>, view: &View, row: &Row) -> Result<Row, AllocError>
    requires mapping { IsMapping view.now }
    requires within { IsKeyLength (length (mapped_key view.now row.now.key)) }
    ensures ok { IfOk result (λ mapped. mapped ≡ mapped_row_of view.now row.now) }
{
    let key = mapped_within(alloc, room, view, &row.key)?;
    let value = copy_of(alloc, &row.value)?;
    Ok(Row { key, value })
}

fn copy_of(alloc: Global, value: &Option<Bytes>) -> Result<Option<Bytes>, AllocError>
    ensures ok { IfOk result (λ copy. copy ≡ value.now) }
{
    match value {
        None => Ok(None),
        Some(bytes) => {
            let copy = bytes.copy(alloc)?;
            Ok(Some(copy))
        }
    }
}
