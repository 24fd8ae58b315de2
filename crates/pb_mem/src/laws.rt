//! What holds of every disk in memory: the states in between are images, too. Each function does nothing: its contract is a law
//! of what the clauses of `MemDisk` say of its slots.
ghost use Rattle.std.specs.Prelude.{◌≡◌, ℕ, List, [], Option, Some, None};
ghost use Rattle.std.specs.FinMap.{get};
ghost use Rattle.pb_devices.specs.Contents.{IsTorn, MayLeave};
ghost use Rattle.pb_devices.specs.DiskCalls.{over};
ghost use Rattle.pb_mem.specs.Files.{written, synced};
ghost use Rattle.pb_mem.specs.Images.{KeepsImages, made_twice, two_bytes};
ghost use Rattle.pb_mem.specs.Slots.{Slots, contents_of, contents_in, created, after_removal, settled, with_file, ChangesAt};

/// After a creation, each image that the name had is one, and so is the empty file.
pub fn a_creation_keeps_each_image()
    ensures keeps { (old new : Slots) (name : List ℕ) → ChangesAt old new name (Some (created (get old name)))
        → KeepsImages (contents_in old) (contents_in new) name }
    ensures new { (old new : Slots) (name : List ℕ) → ChangesAt old new name (Some (created (get old name)))
        → MayLeave (contents_in new) name (Some []) }
{}

/// After a removal, each image that the name had is one, and so is no file.
pub fn a_removal_keeps_each_image()
    ensures keeps { (old new : Slots) (name : List ℕ) → ChangesAt old new name (after_removal (get old name))
        → KeepsImages (contents_in old) (contents_in new) name }
    ensures new { (old new : Slots) (name : List ℕ) → ChangesAt old new name (after_removal (get old name))
        → MayLeave (contents_in new) name None }
{}

/// After a write, each torn file of what reads give is an image.
pub fn a_write_leaves_each_torn_file()
    ensures { (old new : Slots) (name : List ℕ) (at : ℕ) (bytes before image : List ℕ) → (contents_in old).seen name ≡ Some before
        → ChangesAt old new name (with_file (λ file. written file at bytes) (get old name))
        → IsTorn ((contents_in new).durable name) ((contents_in new).pending name) (over before at bytes) image
        → MayLeave (contents_in new) name (Some image) }
{}

/// After a sync, what stood earlier may be left still.
pub fn a_sync_keeps_what_stood_earlier()
    ensures { (old new : Slots) (name : List ℕ) (image : Option (List ℕ)) → ChangesAt old new name (with_file synced (get old name))
        → (contents_in old).earlier name image → (contents_in new).earlier name image }
{}

/// A file that was made, written, removed and made again may be left as it was written; behind a barrier it may not.
pub fn the_middle_file_is_left()
    ensures left { (name : List ℕ) → MayLeave (contents_of (λ _. Some made_twice)) name (Some two_bytes) }
    ensures settled { (name : List ℕ) → MayLeave (contents_of (λ _. Some (settled made_twice))) name (Some two_bytes) → ⊥ }
{}
