ghost use Rattle.std.specs.Prelude.{◌≡◌, ℕ, ◌==◌, ◌&&◌, not, Some, None, List, IfOk, OnOk, OnErr, if◌then◌else◌, map};
ghost use Rattle.std.specs.List.{list_any, filter, filter_map};
ghost use Rattle.std.specs.Option.{option_map};
ghost use Rattle.pb_marker_world.specs.Machine.{same_identity, same_marker, own_marker};
ghost use Rattle.pb_marker_world.specs.Book.{entry_in, opening_in, written, loosened, reopened};
ghost use Rattle.pb_marker_world.specs.Steps.{dropped, settled};
ghost use Rattle.pb_marker_world.specs.declared.stages.Stage.TheVariants.{Loose};
ghost use Rattle.pb_marker_world.specs.Events.{number_at};
ghost use Rattle.pb_marker_world.specs.Found.{IsClosed};

use crate::records::{Handle, MarkerId, Opening, Place, StoreEntry};
use crate::scans::{entry_of, is_listed, is_reopened, is_same};
use crate::stages::Stage;
use pb_names::ObjectId;
use std::alloc::{AllocError, Global};

fn rewritten(place: &Place, store: u64, number: u64, entry: &Option<StoreEntry>) -> Place
    ensures { result ≡ written store number entry.now place.now }
{
    if place.store == store && place.number == number {
        return Place {
            store: place.store,
            number: place.number,
            entry: *entry,
        };
    }
    *place
}

/// Writes the entry at the place of the store and the number.
pub fn write(places: &mut Vec<Place>, store: u64, number: u64, entry: &Option<StoreEntry>)
    ensures { places.new.items ≡ map (written store number entry.now) places.old.items }
{
    for place in places.iter_mut() {
        *place = rewritten(place, store, number, entry);
    }
}

fn loose(entry: Option<StoreEntry>) -> Option<StoreEntry>
    ensures { result ≡ option_map (λ e. settled e Loose) entry }
{
    match entry {
        Some(e) => Some(StoreEntry {
            object: e.object,
            lender: None,
            stage: Stage::Loose,
        }),
        None => None,
    }
}

fn loosened_place(place: &Place, store: u64, kept: &[u64]) -> Place
    ensures { result ≡ loosened store kept.now place.now }
{
    if place.store == store && !is_listed(kept, place.number) {
        return Place {
            store: place.store,
            number: place.number,
            entry: loose(place.entry),
        };
    }
    *place
}

/// Makes each entry of the store Loose whose number isn't kept.
pub fn loosen(places: &mut Vec<Place>, store: u64, kept: &[u64])
    ensures { places.new.items ≡ map (loosened store kept.now) places.old.items }
{
    for place in places.iter_mut() {
        *place = loosened_place(place, store, kept);
    }
}

fn reopened_place(old: &Opening, store: u64, opening: u64) -> Opening
    ensures { result ≡ reopened store opening old.now }
{
    if old.store == store {
        return Opening {
            store: old.store,
            opening,
        };
    }
    *old
}

fn reopen_all(openings: &mut Vec<Opening>, store: u64, opening: u64)
    ensures { openings.new.items ≡ map (reopened store opening) openings.old.items }
{
    for old in openings.iter_mut() {
        *old = reopened_place(old, store, opening);
    }
}

/// Gives the store this opening number. Without memory nothing changes.
pub fn reopen(openings: &mut Vec<Opening>, store: u64, opening: u64) -> Result<(), AllocError>
    ensures ok { OnOk result ((t : ℕ) → opening_in openings.new.items t ≡ (if t == store then opening else opening_in openings.old.items t)) }
    ensures err { OnErr result (openings.new.items ≡ openings.old.items) }
{
    if is_reopened(openings.as_slice(), store) {
        reopen_all(openings, store, opening);
        return Ok(());
    }
    openings.push(Opening { store, opening })?;
    Ok(())
}

/// Takes the object out.
pub fn forget_object(objects: &mut Vec<ObjectId>, id: &ObjectId)
    ensures { objects.new.items ≡ filter (λ x. not (same_identity x id.now)) objects.old.items }
{
    objects.retain(|o| !(o.creator == id.creator && o.number == id.number))
}

/// Takes the marker out.
pub fn forget_marker(markers: &mut Vec<MarkerId>, marker: &MarkerId)
    ensures { markers.new.items ≡ filter (λ x. not (same_marker x marker.now)) markers.old.items }
{
    markers.retain(|m| !is_same(m, marker))
}

fn number_of(places: &[Place], at: usize) -> Option<u64>
    ensures { result ≡ number_at places.now at }
{
    match places.get(at) {
        Some(place) => Some(place.number),
        None => None,
    }
}

fn marker_of(places: &[Place], store: u64, number: u64) -> Option<MarkerId>
    ensures { result ≡ option_map (own_marker store number) (entry_in places.now store number) }
{
    match entry_of(places, store, number) {
        Some(entry) => Some(MarkerId {
            object: entry.object,
            store,
            number,
        }),
        None => None,
    }
}

/// The numbers of these places.
pub fn numbers_of(alloc: Global, places: &[Place], at: &[usize]) -> Result<Vec<u64>, AllocError>
    ensures { IfOk result (λ numbers. numbers.items ≡ filter_map (number_at places.now) at.now) }
{
    let mut numbers = Vec::new(alloc);
    for a in at {
        match number_of(places, *a) {
            Some(number) => numbers.push(number)?,
            None => {}
        }
    }
    Ok(numbers)
}

/// The store's own markers for these numbers.
pub fn own_markers(
    alloc: Global,
    places: &[Place],
    store: u64,
    numbers: &[u64],
) -> Result<Vec<MarkerId>, AllocError>
    ensures { IfOk result (λ markers. markers.items ≡ filter_map (λ n. option_map (own_marker store n) (entry_in places.now store n)) numbers.now) }
{
    let mut markers = Vec::new(alloc);
    for number in numbers {
        match marker_of(places, store, *number) {
            Some(marker) => markers.push(marker)?,
            None => {}
        }
    }
    Ok(markers)
}

fn is_open(handle: &Handle) -> bool
    ensures { result ≡ handle.now.is_open }
{
    handle.is_open
}

fn drop_handle(handle: &mut Handle)
    ensures { handle.new ≡ dropped handle.old }
{
    handle.is_open = false;
}

/// Drops the handle if it is there and open, and answers whether it was.
pub fn close(given: &mut Vec<Handle>, at: usize) -> bool
    ensures { IsClosed given.old.items at result given.new.items }
{
    if at >= given.len() {
        return false;
    }
    if !is_open(&given[at]) {
        return false;
    }
    drop_handle(&mut given[at]);
    true
}
