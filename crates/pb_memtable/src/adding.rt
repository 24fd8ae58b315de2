ghost use Rattle.std.specs.Prelude.{◌≡◌, ◌<◌, ◌++◌, ◌∷◌, [], All, List, filter, not, vec_len, vec_capacity};
ghost use Rattle.pb_keys.specs.Span.{IsSpan};
ghost use Rattle.pb_memtable.specs.Index.{IsIndex};
ghost use Rattle.pb_memtable.specs.Joining.{RoomHolds, room_of};
ghost use Rattle.pb_memtable.specs.Search.{IsRow, IsRowPlace, row_of_change, rows_at};
ghost use Rattle.pb_memtable.specs.View.{IsReserved};
ghost use Rattle.pb_rows.specs.Layer.{Rise};
ghost use Rattle.pb_rows.specs.Over.{with_row, uncovered};
ghost use Rattle.pb_wal.specs.declared.entry.Change.{Change};

use super::ranges::remove_range;
use super::ready::{Room, put_span};
use super::search::{is_at, place_of};
use super::within::rows_within;
use pb_keys::{Key, Span};
use pb_wal::Change;

/// Takes a command into the index, where it is to stand behind the others. It takes no memory.
pub(crate) fn index(
    changes: &[Change],
    places: &mut Vec<usize>,
    dels: &mut Vec<Span>,
    room: Room,
    change: &Change,
)
    requires index { IsIndex changes.now places.old.items dels.old.items }
    requires reserved { IsReserved (room_of room) change.now }
    requires room { RoomHolds room dels.old.items }
    requires places { vec_len places.old < vec_capacity places.old }
    requires dels { vec_len dels.old < vec_capacity dels.old }
    ensures { IsIndex (changes.now ++ change.now ∷ []) places.new.items dels.new.items }
{
    match change {
        Change::Set(key, _) => put_row(changes, places, key),
        Change::Del(key) => put_row(changes, places, key),
        Change::DelRange(span) => {
            drop_rows(changes, places, span);
            match room {
                Room::Span(ready) => put_span(dels, ready),
                Room::Nothing => unreachable!(),
                Room::Row => unreachable!(),
            }
        }
    }
}

/// Puts the row that is to stand behind the others in its place, or in that of the row with its key.
fn put_row(changes: &[Change], places: &mut Vec<usize>, key: &Key)
    requires places { All (IsRowPlace changes.now) places.old.items }
    requires rise { Rise (rows_at changes.now places.old.items) }
    requires fits { vec_len places.old < vec_capacity places.old }
    ensures places { (change : Change) → IsRow change → All (IsRowPlace (changes.now ++ change ∷ [])) places.new.items }
    ensures rows { (change : Change) → (row_of_change change).key ≡ key.now → rows_at (changes.now ++ change ∷ []) places.new.items ≡ with_row (row_of_change change) (rows_at changes.now places.old.items) }
{
    let at = place_of(changes, places.as_slice(), key.prefix(), key.suffix());
    if is_at(changes, places.as_slice(), at, key) {
        places[at] = changes.len();
    } else {
        places.insert(at, changes.len()).unwrap();
    }
}

/// Leaves out the rows whose keys the span holds: those between the places of its two ends.
fn drop_rows(changes: &[Change], places: &mut Vec<usize>, span: &Span)
    requires places { All (IsRowPlace changes.now) places.old.items }
    requires rise { Rise (rows_at changes.now places.old.items) }
    ensures places { All (IsRowPlace changes.now) places.new.items }
    ensures rows { rows_at changes.now places.new.items ≡ uncovered (span.now ∷ []) (rows_at changes.now places.old.items) }
    ensures span { IsSpan span.now }
{
    let (from, to) = rows_within(changes, places.as_slice(), span);
    remove_range(places, from, to);
}
