ghost use Rattle.std.specs.Prelude.{◌≡◌, IfOk};
ghost use Rattle.pb_compact.specs.Outputs.{cut_points, is_point as is_point_of, row_size};

use pb_keys::Bytes;
use pb_rows::Row;
use std::alloc::{AllocError, Global};

/// The bytes of keys and values by which an output is full.
pub(crate) const FULL_OUTPUT: u64 = 262_144;

/// The prefixes at which a new output begins: each the first behind the row by which the output before is full.
pub(crate) fn cut_points(alloc: Global, rows: &[Row]) -> Result<Vec<Bytes>, AllocError>
    ensures ok { IfOk result (λ points. points.items ≡ cut_points rows.now) }
{
    let mut points = Vec::new(alloc);
    let mut sum = 0u64;
    let mut last: &[u8] = b"";
    for row in rows {
        let prefix = row.key.prefix();
        if is_point(sum, last, prefix) {
            let point = Bytes::new(alloc, prefix)?;
            points.push(point)?;
            sum = 0;
        }
        sum = sum.saturating_add(size_of(row));
        last = prefix;
    }
    Ok(points)
}

/// Whether an output of so many bytes is full and its last prefix is below this one.
#[tactic(auto, using(pb_keys::proofs::OrderFacts::compares))]
fn is_point(sum: u64, last: &[u8], prefix: &[u8]) -> bool
    ensures { result ≡ is_point_of sum last.now prefix.now }
{
    sum >= FULL_OUTPUT && last < prefix
}

/// The bytes of the row's key and value.
fn size_of(row: &Row) -> u64
    ensures { result ≡ row_size row.now }
{
    let key = row.key.as_bytes().len() as u64;
    match &row.value {
        None => key,
        Some(value) => key + value.as_slice().len() as u64,
    }
}
