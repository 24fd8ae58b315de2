ghost use Rattle.std.specs.Prelude.{◌≡◌, ◌≢◌, ◌↔◌, ◌≤◌, ◌^◌, [], ◌∷◌, ◌++◌, IfOk, OnOk, OnErr, IsTrue};
ghost use Rattle.pb_memtable.specs.View.{IsReserved, RoomFor, commands_of, size_of};
ghost use Rattle.pb_rows.specs.ChangingLayers.{layer_of_changes};
ghost use Rattle.pb_rows.specs.Found.{as_verdict};
ghost use Rattle.pb_rows.specs.Layer.{IsFilled};
ghost use Rattle.pb_rows.specs.Touching.{touches};
ghost use Rattle.pb_rows.specs.Verdict.{verdict};
ghost use Rattle.pb_rows.specs.Viewed.{plain_view, viewed};
ghost use Rattle.pb_wal.specs.Changes.{HasShortValue, changing_of};

use super::adding::index;
use super::changes::found_at;
use super::copies::rows_of;
use super::layers::layer_of;
use super::ready::{Room, make_room};
use super::search::{is_at, place_of};
use super::within::{dels_within, has_overlap, has_row_within, places_within};
use pb_keys::{Key, Span, copy_all};
use pb_rangedel::covers;
use pb_rows::{Found, Layer};
use pb_wal::{Change, Entry};
use std::alloc::{AllocError, Global};
use std::marker::Model;
use std::mem;

/// The changing commands of a log in memory, in the order in which they were added.
///
/// It keeps each command as long as itself. Beside them stand the places of the newest rows in key order, so that a row is
/// put in its place by moving numbers, and the deletions, ascending and neither overlapping nor touching. Contracts see a
/// memtable as its commands, and for which command there is room: docs/MODEL.md, "Memtables".
///
/// A set or a del takes 48 bytes and a place of 8, a delrange 48 and a deletion of 32 where it touches no other one. Up to
/// 14 bytes of a key, a value or an end stand in these, longer ones in blocks of their own. So dels of one-byte keys, nearly
/// all of them overwritten, take 48 times the memtable's size.
#[derive(Debug, Drop)]
pub struct Memtable {
    changes: Vec<Change>,
    places: Vec<usize>,
    dels: Vec<Span>,
    room: Room,
    size: u64,
}

impl Model for Memtable {
    ghost use Rattle.pb_memtable.specs.Codes.{commands_code};
    ghost use Rattle.pb_memtable.specs.View.{Commands};

    ghost Value = { Commands };

    ghost coded = { commands_code };

    ghost use Rattle.pb_memtable.specs.Index.{IsKept, view_of};

    ghost view = { view_of };

    ghost invariant = { IsKept };
}

impl Memtable {
    /// One without commands.
    pub fn new(alloc: Global) -> Memtable
        ensures { result ≡ commands_of [] RoomFor.Nothing }
    {
        Memtable {
            changes: Vec::new(alloc),
            places: Vec::new(alloc),
            dels: Vec::new(alloc),
            room: Room::Nothing,
            size: 0,
        }
    }

    /// Makes room for this command, in the place of the room for another one. Without memory nothing has changed.
    pub fn reserve(&mut self, alloc: Global, entry: &Entry) -> Result<(), AllocError>
        requires short { HasShortValue entry.now.change }
        requires small { size_of self.old.changes ≤ 2 ^ 62 }
        ensures changes { self.new.changes ≡ self.old.changes }
        ensures ok { OnOk result (IsReserved self.new.room entry.now.change) }
        ensures err { OnErr result (self.new ≡ self.old) }
    {
        let room = make_room(alloc, self.dels.as_slice(), &entry.change)?;
        self.changes.reserve(1)?;
        self.places.reserve(1)?;
        self.dels.reserve(1)?;
        self.room = room;
        Ok(())
    }

    /// Adds the command for which there is room, as the newest. It takes no memory.
    ///
    /// A delrange takes the rows that it holds out of the index. A row that is added later isn't held by it.
    pub fn add(&mut self, entry: Entry)
        requires { IsReserved self.old.room entry.change }
        ensures { self.new ≡ commands_of (self.old.changes ++ changing_of entry.change ∷ []) RoomFor.Nothing }
    {
        let Entry { count: _, change } = entry;
        self.size += change.len();
        let room = mem::replace(&mut self.room, Room::Nothing);
        index(
            self.changes.as_slice(),
            &mut self.places,
            &mut self.dels,
            room,
            &change,
        );
        self.changes.push(change).unwrap();
    }

    /// Whether there is no command.
    pub fn is_empty(&self) -> bool
        ensures { IsTrue result ↔ (self.now.changes ≡ []) }
    {
        self.changes.is_empty()
    }

    /// The layer that does to a map what the commands do to it in turn, in one pass over its rows and deletions. It has a
    /// row or a deletion where there is a command.
    pub fn layer(&self, alloc: Global) -> Result<Layer, AllocError>
        ensures ok { IfOk result (λ layer. layer ≡ layer_of_changes self.now.changes) }
        ensures filled { self.now.changes ≢ [] → IfOk result IsFilled }
    {
        let dels = copy_all(alloc, self.dels.as_slice())?;
        let rows = rows_of(alloc, self.changes.as_slice(), self.places.as_slice())?;
        let layer = layer_of(alloc, dels, rows);
        Ok(layer)
    }

    /// What the layer of the commands has within the span, in the time of what lies there and of halving over the rows and
    /// over the deletions.
    pub fn layer_within(&self, alloc: Global, span: &Span) -> Result<Layer, AllocError>
        ensures ok { IfOk result (λ layer. layer ≡ viewed (plain_view span.now) (layer_of_changes self.now.changes)) }
    {
        let changes = self.changes.as_slice();
        let places = places_within(changes, self.places.as_slice(), span);
        let dels = dels_within(alloc, self.dels.as_slice(), span)?;
        let rows = rows_of(alloc, changes, places)?;
        let layer = layer_of(alloc, dels, rows);
        Ok(layer)
    }

    /// Another memtable of the same commands, with room for none.
    pub fn copy(&self, alloc: Global) -> Result<Memtable, AllocError>
        ensures ok { IfOk result (λ memtable. memtable ≡ commands_of self.now.changes RoomFor.Nothing) }
    {
        let changes = copy_all(alloc, self.changes.as_slice())?;
        let places = Vec::from_slice(alloc, self.places.as_slice())?;
        let dels = copy_all(alloc, self.dels.as_slice())?;
        Ok(Memtable {
            changes,
            places,
            dels,
            room: Room::Nothing,
            size: self.size,
        })
    }

    /// Whether the layer of the commands has a row whose key the span holds, or a deletion that overlaps the span; by
    /// halving over the rows and over the deletions.
    pub fn overlaps(&self, span: &Span) -> bool
        ensures { result ≡ touches (layer_of_changes self.now.changes) span.now }
    {
        let changes = self.changes.as_slice();
        has_row_within(changes, self.places.as_slice(), span)
            || has_overlap(self.dels.as_slice(), span)
    }

    /// The lengths of the keys, values and ends of all commands, in bytes, also of those that later ones overwrote or
    /// covered.
    pub fn size(&self) -> u64
        ensures { result ≡ size_of self.now.changes }
    {
        self.size
    }

    /// What the layer of the commands has of this key, by halving over the rows and over the deletions.
    pub fn get<'a>(&'a self, key: &Key) -> Found<'a>
        ensures { as_verdict result ≡ verdict (layer_of_changes self.now.changes) key.now }
    {
        let changes = self.changes.as_slice();
        let places = self.places.as_slice();
        let at = place_of(changes, places, key.prefix(), key.suffix());
        if is_at(changes, places, at, key) {
            return found_at(changes, places[at]);
        }
        if covers(self.dels.as_slice(), key) {
            return Found::Deleted;
        }
        Found::Absent
    }
}
