ghost use Rattle.std.specs.Prelude.{◌≡◌, true, false, if◌then◌else◌, is_some};
ghost use Rattle.pb_marker_world.specs.declared.stages.Stage.TheVariants.{Intended, Held, Loose, Counted, Ended};
ghost use Rattle.pb_marker_world.specs.Machine.{identity, own_marker, same_identity};
ghost use Rattle.pb_marker_world.specs.Steps.{at_stage, settled};
ghost use Rattle.pb_marker_world.specs.Sound.{is_settled_stage};
ghost use Rattle.pb_marker_world.specs.Found.{stage_marked};

use crate::records::{MarkerId, StoreEntry};
use crate::scans::Found;
use crate::stages::Stage;
use pb_names::ObjectId;

/// The entry at another stage.
pub fn at_stage(entry: &StoreEntry, stage: Stage) -> StoreEntry
    ensures { result ≡ at_stage entry.now stage }
{
    StoreEntry {
        object: entry.object,
        lender: entry.lender,
        stage,
    }
}

/// The entry at another stage, with no lender any more.
pub fn settled(entry: &StoreEntry, stage: Stage) -> StoreEntry
    ensures { result ≡ settled entry.now stage }
{
    StoreEntry {
        object: entry.object,
        lender: None,
        stage,
    }
}

/// The marker that the store puts for the entry.
pub fn own_marker(found: &Found) -> MarkerId
    ensures { result ≡ own_marker found.now.store found.now.number found.now.entry }
{
    MarkerId {
        object: found.entry.object,
        store: found.store,
        number: found.number,
    }
}

/// What an entry becomes as its marker is put: Held from Put, Marked from Intended with a lender.
pub fn marked_stage(entry: &StoreEntry) -> Option<Stage>
    ensures { result ≡ stage_marked entry.now }
{
    match entry.stage {
        Stage::Put => Some(Stage::Held),
        Stage::Intended => match entry.lender {
            Some(_) => Some(Stage::Marked),
            None => None,
        },
        _ => None,
    }
}

/// What an entry becomes by its check.
pub fn checked_stage(present: bool) -> Stage
    ensures { result ≡ (if present then Held else Loose) }
{
    if present { Stage::Held } else { Stage::Loose }
}

/// What an entry becomes by its count.
pub fn counted_stage(any: bool) -> Stage
    ensures { result ≡ (if any then Ended else Counted) }
{
    if any { Stage::Ended } else { Stage::Counted }
}

/// Whether the entry has come this far.
pub fn is_at(entry: &StoreEntry, stage: Stage) -> bool
    ensures yes { result ≡ true → entry.now.stage ≡ stage }
    ensures no { result ≡ false → entry.now.stage ≡ stage → ⊥ }
{
    entry.stage == stage
}

/// The entry's object.
pub fn object_of(entry: &StoreEntry) -> ObjectId
    ensures { result ≡ entry.now.object }
{
    entry.object
}

/// Whether the entry has a lender's marker.
pub fn has_lender(entry: &StoreEntry) -> bool
    ensures { result ≡ is_some entry.now.lender }
{
    entry.lender.is_some()
}

/// Whether the entry is Held or Loose.
pub fn is_settled(entry: &StoreEntry) -> bool
    ensures { result ≡ is_settled_stage entry.now.stage }
{
    match entry.stage {
        Stage::Held | Stage::Loose => true,
        _ => false,
    }
}

/// The lender's marker of the entry.
pub fn lender_of(entry: &StoreEntry) -> Option<MarkerId>
    ensures { result ≡ entry.now.lender }
{
    entry.lender
}

/// A new entry.
pub fn intended(object: &ObjectId, lender: Option<MarkerId>) -> StoreEntry
    ensures { result ≡ record { object = object.now; lender = lender; stage = Intended } }
{
    StoreEntry {
        object: *object,
        lender,
        stage: Stage::Intended,
    }
}

/// Whether the store makes the object under the number.
pub fn is_made_by(object: &ObjectId, store: u64, number: u64) -> bool
    ensures { result ≡ same_identity object.now (identity store number) }
{
    object.creator == store && object.number == number
}

/// Whether the marker is one of the object.
pub fn is_marker_of(marker: &MarkerId, object: &ObjectId) -> bool
    ensures { result ≡ same_identity marker.now.object object.now }
{
    marker.object.creator == object.creator && marker.object.number == object.number
}
