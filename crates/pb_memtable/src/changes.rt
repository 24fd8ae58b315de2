ghost use Rattle.std.specs.Prelude.{◌≡◌, Some};
ghost use Rattle.pb_memtable.specs.Search.{IsRowPlace, change_at, row_of_change};
ghost use Rattle.pb_rows.specs.Found.{as_verdict};

use pb_keys::Key;
use pb_rows::Found;
use pb_wal::Change;

/// The key of the set or del at this place.
pub(crate) fn key_at<'a>(changes: &'a [Change], place: usize) -> &'a Key
    requires { IsRowPlace changes.now place }
    ensures { result.now ≡ (row_of_change (change_at changes.now place)).key }
{
    match &changes[place] {
        Change::Set(key, _) => key,
        Change::Del(key) => key,
        Change::DelRange(_) => unreachable!(),
    }
}

/// What the set or del at this place has of its key.
pub(crate) fn found_at<'a>(changes: &'a [Change], place: usize) -> Found<'a>
    requires { IsRowPlace changes.now place }
    ensures { as_verdict result ≡ Some (row_of_change (change_at changes.now place)).value }
{
    match &changes[place] {
        Change::Set(_, value) => Found::Value(value.as_slice()),
        Change::Del(_) => Found::Deleted,
        Change::DelRange(_) => unreachable!(),
    }
}
