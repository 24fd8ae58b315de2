ghost use Rattle.std.specs.Prelude.{◌≡◌, ℕ, ◌<◌, List, length, All, slice_index, true};
ghost use Rattle.pb_keys.specs.Key.{prefix_of, suffix_of};
ghost use Rattle.pb_memtable.specs.Search.{IsRowPlace, IsPlaceOf, change_at, row_of_change, rows_at};
ghost use Rattle.pb_rows.specs.Layer.{Rise};

use super::changes::key_at;
use pb_keys::Key;
use pb_wal::Change;

/// The place of the first row that isn't below the key with these parts, by halving.
pub(crate) fn place_of(changes: &[Change], places: &[usize], prefix: &[u8], suffix: &[u8]) -> usize
    requires places { All (IsRowPlace changes.now) places.now }
    requires rise { Rise (rows_at changes.now places.now) }
    ensures { (key : List ℕ) → prefix.now ≡ prefix_of key → suffix.now ≡ suffix_of key → IsPlaceOf key (rows_at changes.now places.now) result }
{
    let mut lo = 0;
    let mut hi = places.len();
    while lo < hi {
        let middle = lo + (hi - lo) / 2;
        if key_at(changes, places[middle]).is_below(prefix, suffix) {
            lo = middle + 1;
        } else {
            hi = middle;
        }
    }
    lo
}

/// Whether the row at this place has this key.
pub(crate) fn is_at(changes: &[Change], places: &[usize], at: usize, key: &Key) -> bool
    requires { All (IsRowPlace changes.now) places.now }
    ensures within { result ≡ true → at < length places.now }
    ensures key { result ≡ true → (row_of_change (change_at changes.now (slice_index places.now at))).key ≡ key.now }
    ensures other { at < length places.now → (row_of_change (change_at changes.now (slice_index places.now at))).key ≡ key.now → result ≡ true }
{
    at < places.len() && *key_at(changes, places[at]) == *key
}
