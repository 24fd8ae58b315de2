ghost use Rattle.std.specs.Prelude.{◌≡◌, ◌==◌, None, MatchOption};
ghost use Rattle.std.specs.List.{list_any, list_all};
ghost use Rattle.pb_marker_world.specs.Machine.{same_identity, same_marker};
ghost use Rattle.pb_marker_world.specs.Steps.{protects, is_held_entry};
ghost use Rattle.pb_marker_world.specs.Book.{entry_in, opening_in, is_place, is_spent_as, is_used_in, has_object, has_marker};
ghost use Rattle.pb_marker_world.specs.Events.{is_of, placed_in, lent_in, lender_in};
ghost use Rattle.pb_marker_world.specs.Found.{IsFoundAt};

use crate::events::Lender;
use crate::records::{Handle, MarkerId, Opening, Place, Spent, StoreEntry};
use crate::stages::Stage;
use pb_names::ObjectId;

/// The entry of the store under the number.
pub fn entry_of(places: &[Place], store: u64, number: u64) -> Option<StoreEntry>
    ensures { result ≡ entry_in places.now store number }
{
    for place in places {
        if place.store == store && place.number == number {
            return place.entry;
        }
    }
    None
}

/// How often the store was opened again.
pub fn opening_of(openings: &[Opening], store: u64) -> u64
    ensures { result ≡ opening_in openings.now store }
{
    for opening in openings {
        if opening.store == store {
            return opening.opening;
        }
    }
    0
}

fn is_spent(spent: &[Spent], store: u64, number: u64) -> bool
    ensures { result ≡ list_any (is_spent_as store number) spent.now }
{
    spent.iter().any(|s| s.store == store && s.number == number)
}

fn is_placed(places: &[Place], store: u64, number: u64) -> bool
    ensures { result ≡ list_any (is_place store number) places.now }
{
    places
        .iter()
        .any(|p| p.store == store && p.number == number)
}

/// Whether the store has used the number.
pub fn is_used(places: &[Place], spent: &[Spent], store: u64, number: u64) -> bool
    ensures { result ≡ is_used_in places.now spent.now store number }
{
    is_spent(spent, store, number) || is_placed(places, store, number)
}

/// Whether the object is present.
pub fn is_object(objects: &[ObjectId], id: &ObjectId) -> bool
    ensures { result ≡ has_object objects.now id.now }
{
    objects
        .iter()
        .any(|o| o.creator == id.creator && o.number == id.number)
}

pub fn is_same(a: &MarkerId, b: &MarkerId) -> bool
    ensures { result ≡ same_marker a.now b.now }
{
    a.object.creator == b.object.creator
        && a.object.number == b.object.number
        && (a.store == b.store && a.number == b.number)
}

/// Whether the marker is among these.
pub fn is_marker(markers: &[MarkerId], marker: &MarkerId) -> bool
    ensures { result ≡ has_marker markers.now marker.now }
{
    markers.iter().any(|m| is_same(m, marker))
}

/// Whether a marker of the object is among these.
pub fn is_marked(markers: &[MarkerId], object: &ObjectId) -> bool
    ensures { result ≡ list_any (λ m. same_identity m.object object.now) markers.now }
{
    markers.iter().any(|m| m.object.creator == object.creator && m.object.number == object.number)
}

/// Whether an open handle of this opening of the store lends the marker.
pub fn is_protected(given: &[Handle], store: u64, opening: u64, marker: &MarkerId) -> bool
    ensures { result ≡ list_any (protects store opening marker.now) given.now }
{
    given.iter().any(|h| h.is_open
        && (h.store == store && (h.opening == opening && is_marker(h.markers.as_slice(), marker))))
}

/// Whether the store was opened again.
pub fn is_reopened(openings: &[Opening], store: u64) -> bool
    ensures { result ≡ list_any (λ o. o.store == store) openings.now }
{
    openings.iter().any(|o| o.store == store)
}

/// Whether the number is among these.
pub fn is_listed(numbers: &[u64], number: u64) -> bool
    ensures { result ≡ list_any (λ n. n == number) numbers.now }
{
    numbers.iter().any(|n| *n == number)
}

/// Whether the place is there, and is the store's.
pub fn is_own(places: &[Place], store: u64, at: usize) -> bool
    ensures { result ≡ is_of places.now store at }
{
    match places.get(at) {
        Some(place) => place.store == store,
        None => false,
    }
}

/// Whether the store holds what it has under the number.
pub fn is_held(places: &[Place], store: u64, number: u64) -> bool
    ensures { result ≡ is_held_entry (entry_in places.now store number) }
{
    match entry_of(places, store, number) {
        Some(entry) => matches!(entry.stage, Stage::Held),
        None => false,
    }
}

/// Whether each of these places is there, and is the store's.
pub fn are_own(places: &[Place], store: u64, at: &[usize]) -> bool
    ensures { result ≡ list_all (is_of places.now store) at.now }
{
    at.iter().all(|a| is_own(places, store, *a))
}

/// Whether the store holds what it has under each of these numbers.
pub fn are_held(places: &[Place], store: u64, numbers: &[u64]) -> bool
    ensures { result ≡ list_all (λ n. is_held_entry (entry_in places.now store n)) numbers.now }
{
    numbers.iter().all(|n| is_held(places, store, *n))
}

/// The entry at a place, with the store and the number that it has there.
#[derive(Clone, Copy)]
pub struct Found {
    pub store: u64,
    pub number: u64,
    pub entry: StoreEntry,
}

/// The entry at the place, if one stands there.
pub fn find(places: &[Place], at: usize) -> Option<Found>
    ensures { MatchOption result (placed_in places.now at ≡ None) (IsFoundAt places.now at) }
{
    let place = places.get(at)?;
    let entry = entry_of(places, place.store, place.number)?;
    Some(Found {
        store: place.store,
        number: place.number,
        entry,
    })
}

/// The marker that the handle lends at the place.
pub fn lent(given: &[Handle], lender: &Lender) -> Option<MarkerId>
    ensures { result ≡ lent_in given.now lender.now }
{
    let handle = given.get(lender.handle)?;
    handle.markers.get(lender.place).copied()
}

/// Whether the lender's marker is among these.
pub fn has_lender_marker(markers: &[MarkerId], lender: &Option<MarkerId>) -> bool
    ensures { result ≡ lender_in markers.now lender.now }
{
    match lender {
        Some(marker) => is_marker(markers, marker),
        None => false,
    }
}

/// Whether the place holds an entry that is Held.
pub fn is_entry_held(places: &[Place], at: usize) -> bool
    ensures { result ≡ is_held_entry (placed_in places.now at) }
{
    match places.get(at) {
        Some(place) => is_held(places, place.store, place.number),
        None => false,
    }
}
