//! What holds of all stores. Each function does nothing: its contract is a law of the definitions that the contracts of this
//! crate and of those above cite.
ghost use Rattle.std.specs.Prelude.{◌≡◌, ℕ, ◌+◌, ◌≤◌, true, [], ◌∷◌, ◌++◌, Option, Some, None};
ghost use Rattle.pb_devices.specs.Contents.{Folder, IsImage};
ghost use Rattle.pb_devices.specs.Objects.{Objects};
ghost use Rattle.pb_folder.specs.Said.{Said, Says};
ghost use Rattle.pb_folder.specs.Shown.{Words, closed_part};
ghost use Rattle.pb_marker_world.specs.Spending.{spend_each};
ghost use Rattle.pb_marker_world.specs.Steps.{Reaches};
ghost use Rattle.pb_marker_world.specs.Steps.Step.{Crashes};
ghost use Rattle.pb_recover.specs.Files.{IsReady, KeepsFiles};
ghost use Rattle.pb_recover.specs.Reopened.{Reopens};
ghost use Rattle.pb_store.specs.Around.{Around, shown_part};
ghost use Rattle.pb_store.specs.Devices.{BucketCall, IsReading, devices_of, seen_by};
ghost use Rattle.pb_store.specs.Moves.{IsLocal, MayFallTo, Moves, NoMoreUnintended, OnlyDraws, ShowsWords, drawn, named_in, unspent};
ghost use Rattle.pb_store.specs.Opening.{IsJustOpened, OpeningMoves, Starts};
ghost use Rattle.pb_store.specs.View.{StoreView, id_of};

use pb_devices::{Bucket, Disk};

/// A store that falls goes from what it showed to the part of a closed store with the words of its folder, opened once more: the
/// numbers that the folder has used and the store hasn't are spent, and then it crashes.
pub fn falls()
    ensures { (store : StoreView) (a : Around) (words : Words) (objects : Objects) → MayFallTo store words
        → Reaches (id_of store) (seen_by (shown_part store a) objects a) (spend_each (unspent store words) ++ Crashes (named_in words) ∷ [])
        (seen_by (closed_part (a.opening + 1) words) objects a) }
{}

/// Numbers that were drawn are spent, where the shared entries and their stages are as before.
pub fn next_rises()
    ensures { (old new : StoreView) (a : Around) (objects : Objects) → OnlyDraws old new
        → Reaches (id_of old) (seen_by (shown_part old a) objects a) (spend_each (drawn old new)) (seen_by (shown_part new a) objects a) }
{}

/// While no entry stands, a store may fall to whatever its folder says, where that has no lesser number to be drawn next.
pub fn bare_stores_fall()
    ensures { (store : StoreView) (folder : Folder) (said : Said) → IsReady store.files → Says folder (id_of store) said
        → store.files.manifest.next ≤ said.version.five.next → MayFallTo store (Some said) }
{}

/// Each image of a disk that keeps a store's files shows words, to which the store as it was before it drew numbers may fall.
pub fn kept_files_show<D: Disk>(disk: &D)
    ensures { (old new : StoreView) → IsReady new.files → KeepsFiles new.files (D.contents disk.now) → OnlyDraws old new
        → (folder : Folder) → IsImage (D.contents disk.now) folder → ShowsWords old new folder }
{}

/// A call that makes no step of the bucket's, and changes no shared entry and no stage, moves the store's part by numbers that it
/// drew; or, where the store fell, by a crash.
pub fn local_moves<D: Disk, B: Bucket>(old_disk: &D, new_disk: &D, old_bucket: &B, new_bucket: &B)
    ensures { (old new : StoreView) (a : Around) (call : Option BucketCall) → IsReading call
        → IsLocal old new
        (devices_of (D.contents old_disk.now) (B.objects old_bucket.now) (D.fault_count old_disk.now) (B.fault_count old_bucket.now) (B.call_count old_bucket.now))
        (devices_of (D.contents new_disk.now) (B.objects new_bucket.now) (D.fault_count new_disk.now) (B.fault_count new_bucket.now) (B.call_count new_bucket.now))
        → Moves old new a
        (devices_of (D.contents old_disk.now) (B.objects old_bucket.now) (D.fault_count old_disk.now) (B.fault_count old_bucket.now) (B.call_count old_bucket.now))
        (devices_of (D.contents new_disk.now) (B.objects new_bucket.now) (D.fault_count new_disk.now) (B.fault_count new_bucket.now) (B.call_count new_bucket.now))
        call }
{}

/// So does a call that only reads, where the disk still keeps the store's files: it draws nothing.
pub fn reading_moves<D: Disk, B: Bucket>(old_disk: &D, new_disk: &D, old_bucket: &B, new_bucket: &B)
    ensures { (old new : StoreView) (a : Around) (call : Option BucketCall) → IsReading call → IsReady old.files
        → KeepsFiles old.files (D.contents new_disk.now) → new.files ≡ old.files → NoMoreUnintended old new
        → B.objects new_bucket.now ≡ B.objects old_bucket.now
        → Moves old new a
        (devices_of (D.contents old_disk.now) (B.objects old_bucket.now) (D.fault_count old_disk.now) (B.fault_count old_bucket.now) (B.call_count old_bucket.now))
        (devices_of (D.contents new_disk.now) (B.objects new_bucket.now) (D.fault_count new_disk.now) (B.fault_count new_bucket.now) (B.call_count new_bucket.now))
        call }
{}

/// An opening moves nothing of a store that was there. Of a new one it spends the numbers that it drew, and, where it is refused
/// behind the store's entry in `CURRENT`, all that the folder has reserved.
pub fn opening_moves<D: Disk, B: Bucket>(old_disk: &D, new_disk: &D, old_bucket: &B, new_bucket: &B)
    ensures opened { D.told ≡ true → (id : ℕ) (store : StoreView) → IsJustOpened id store → KeepsFiles store.files (D.contents new_disk.now)
        → Starts (D.contents old_disk.now) store.files → Reopens id (D.contents old_disk.now) (D.contents new_disk.now)
        → B.objects new_bucket.now ≡ B.objects old_bucket.now
        → OpeningMoves id (Some store)
        (devices_of (D.contents old_disk.now) (B.objects old_bucket.now) (D.fault_count old_disk.now) (B.fault_count old_bucket.now) (B.call_count old_bucket.now))
        (devices_of (D.contents new_disk.now) (B.objects new_bucket.now) (D.fault_count new_disk.now) (B.fault_count new_bucket.now) (B.call_count new_bucket.now)) }
    ensures refused { (id : ℕ) → Reopens id (D.contents old_disk.now) (D.contents new_disk.now)
        → B.objects new_bucket.now ≡ B.objects old_bucket.now
        → OpeningMoves id None
        (devices_of (D.contents old_disk.now) (B.objects old_bucket.now) (D.fault_count old_disk.now) (B.fault_count old_bucket.now) (B.call_count old_bucket.now))
        (devices_of (D.contents new_disk.now) (B.objects new_bucket.now) (D.fault_count new_disk.now) (B.fault_count new_bucket.now) (B.call_count new_bucket.now)) }
{}
