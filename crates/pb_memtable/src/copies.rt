ghost use Rattle.std.specs.Prelude.{◌≡◌, IfOk, All};
ghost use Rattle.pb_memtable.specs.Search.{IsRowPlace, change_at, row_of_change, rows_at};

use pb_rows::Row;
use pb_wal::Change;
use std::alloc::{AllocError, Global};

/// Copies of the rows at these places.
pub(crate) fn rows_of(
    alloc: Global,
    changes: &[Change],
    places: &[usize],
) -> Result<Vec<Row>, AllocError>
    requires { All (IsRowPlace changes.now) places.now }
    ensures ok { IfOk result (λ rows. rows.items ≡ rows_at changes.now places.now) }
{
    let mut rows = Vec::new(alloc);
    for place in places {
        let row = copy_of_row(alloc, changes, *place)?;
        rows.push(row)?;
    }
    Ok(rows)
}

fn copy_of_row(alloc: Global, changes: &[Change], place: usize) -> Result<Row, AllocError>
    requires { IsRowPlace changes.now place }
    ensures ok { IfOk result (λ row. row ≡ row_of_change (change_at changes.now place)) }
{
    match &changes[place] {
        Change::Set(key, value) => {
            let key = key.copy(alloc)?;
            let value = value.copy(alloc)?;
            Ok(Row {
                key,
                value: Some(value),
            })
        }
        Change::Del(key) => {
            let key = key.copy(alloc)?;
            Ok(Row { key, value: None })
        }
        Change::DelRange(_) => unreachable!(),
    }
}
