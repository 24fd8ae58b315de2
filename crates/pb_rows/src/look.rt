ghost use Rattle.std.specs.Prelude.{◌≡◌, All, if◌then◌else◌};
ghost use Rattle.pb_keys.specs.Span.{IsSpan};
ghost use Rattle.std.specs.Option.{option_map};
ghost use Rattle.pb_rows.specs.Found.{as_verdict};
ghost use Rattle.pb_rows.specs.Layer.{AreApart, Rise};
ghost use Rattle.pb_rows.specs.Verdict.{row_verdict, is_covered};

use super::Row;
use pb_keys::{Key, Span};

/// What a layer has of a key.
#[derive(Clone, Copy, Debug, PartialEq, Eq)]
pub enum Found<'a> {
    /// Its value.
    Value(&'a [u8]),
    /// A row or a span that deletes it.
    Deleted,
    /// Nothing.
    Absent,
}

/// The row of this key.
pub(crate) fn row_of<'a>(rows: &'a [Row], key: &Key) -> Option<&'a Row>
    requires { Rise rows.now }
    ensures { option_map (λ row. row.now.value) result ≡ row_verdict rows.now key.now }
{
    let at = rows.partition_point(|row| row.key < *key);
    if at < rows.len() {
        let row = &rows[at];
        if row.key == *key {
            return Some(row);
        }
    }
    None
}

/// Whether one of the spans, which ascend and neither overlap nor touch, holds the key; by halving.
pub fn covers(dels: &[Span], key: &Key) -> bool
    requires in_form { All IsSpan dels.now }
    requires apart { AreApart dels.now }
    ensures { result ≡ is_covered dels.now key.now }
{
    let prefix = key.prefix();
    let at = dels.partition_point(|span| span.hi() <= prefix);
    at < dels.len() && dels[at].contains(key)
}

/// What a row has of its key.
pub(crate) fn found_in<'a>(row: &'a Row) -> Found<'a>
    ensures { as_verdict result ≡ Some row.now.value }
{
    match &row.value {
        Some(bytes) => Found::Value(bytes.as_slice()),
        None => Found::Deleted,
    }
}

/// What spans have of a key without a row.
pub(crate) fn found_among<'a>(dels: &[Span], key: &Key) -> Found<'a>
    requires spans { All IsSpan dels.now }
    requires apart { AreApart dels.now }
    ensures { as_verdict result ≡ (if is_covered dels.now key.now then Some None else None) }
{
    if covers(dels, key) {
        Found::Deleted
    } else {
        Found::Absent
    }
}
