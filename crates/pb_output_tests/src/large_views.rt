//! Tables of the size of the product.
use crate::layers::{add_row, numbered, put_within};
use crate::shown::{has_text, shown, table_of};
use pb_rows::Layer;
use std::alloc::Global;
use std::test::Fail;

// Whether a table of 100,000 rows and 10,000 deletions shows so many, and those that a plain filter leaves.
fn is_left(alloc: Global, lo: &[u8], hi: &[u8], rows: usize, dels: usize) -> Result<bool, Fail> {
    let layer = numbered(alloc, 100_000, 10_000, 8)?;
    let bytes = table_of(alloc, &layer)?;
    let mut plain = Vec::new(alloc);
    put_within(&mut plain, &layer, lo, hi)?;
    match shown(alloc, lo, hi, bytes.as_slice())? {
        None => Ok(false),
        Some(found) => {
            let same = has_text(alloc, &found, &plain)?;
            Ok(same && found.rows().len() == rows && found.dels().len() == dels)
        }
    }
}

#[test]
fn bounds_leave_one_row_of_many(rt: HostRuntime) -> Result<(), Fail> {
    assert!(rt; is_left(rt.alloc(), b"00050007", b"00050007\0", 1, 0)?);
    Ok(())
}

#[test]
fn bounds_leave_half_of_many_rows(rt: HostRuntime) -> Result<(), Fail> {
    assert!(rt; is_left(rt.alloc(), b"0", b"0005", 50_000, 5_000)?);
    Ok(())
}

#[test]
fn bounds_leave_all_of_many_rows(rt: HostRuntime) -> Result<(), Fail> {
    assert!(rt; is_left(rt.alloc(), b"0", b"1", 100_000, 10_000)?);
    Ok(())
}

// The length of the first row's key and of its value.
fn lengths_of(layer: &Layer) -> (usize, usize) {
    let Some(row) = layer.rows().first() else {
        return (0, 0);
    };
    let key = row.key.as_bytes().len();
    match &row.value {
        None => (key, 0),
        Some(value) => (key, value.as_slice().len()),
    }
}

fn longest_row(alloc: Global) -> Result<Layer, Fail> {
    let key = vec![in alloc; b'k'; 1_024]?;
    let mut rows = Vec::new(alloc);
    add_row(alloc, &mut rows, &key, Some(65_536))?;
    let layer = Layer::new(alloc, Vec::new(alloc), rows)?;
    Ok(layer)
}

#[test]
fn the_longest_row_is_shown_alone(rt: HostRuntime) -> Result<(), Fail> {
    let layer = longest_row(rt.alloc())?;
    let bytes = table_of(rt.alloc(), &layer)?;
    let found = shown(rt.alloc(), b"k", b"l", bytes.as_slice())?.ok_or("no table")?;
    assert_eq!(rt; found.rows().len(), 1);
    assert!(rt; lengths_of(&found) == (1_024, 65_536));
    Ok(())
}
