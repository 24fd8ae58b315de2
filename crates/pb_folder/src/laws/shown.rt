//! What folders show of the marker world, and what a program may begin with.
ghost use Rattle.std.specs.Prelude.{◌≡◌, ◌↔◌, ℕ, None, All, IsSome};
ghost use Rattle.std.specs.FinMap.{get};
ghost use Rattle.pb_devices.specs.Contents.{Folder};
ghost use Rattle.pb_devices.specs.Objects.{Objects};
ghost use Rattle.pb_gate_log.specs.NewFolder.{IsNew};
ghost use Rattle.pb_keys.specs.Map.{Map};
ghost use Rattle.pb_marker_world.specs.Bucket.{NamesInForm};
ghost use Rattle.pb_marker_world.specs.Sound.{IsSound, IsSteady};
ghost use Rattle.pb_names.specs.Identity.{IsStore};
ghost use Rattle.pb_folder.specs.Shown.{Words, Shows, closed_world, HasNoShared, StandsForSome, KeepsPayloadsOf, named_by, StaysNamed};
ghost use Rattle.pb_folder.specs.StandsFor.{StandsFor};

/// A folder shows one words, whichever store it is read for.
pub fn one_shown()
    ensures { (folder : Folder) (id other : ℕ) (one two : Words) → Shows folder id one → Shows folder other two → one ≡ two }
{}

/// Two folders that have, name by name, the same bytes or one list of payloads show the same words.
pub fn payloads_decide()
    ensures { (one other : Folder) (id : ℕ) (words : Words) → KeepsPayloadsOf one other → Shows one id words ↔ Shows other id words }
{}

/// New folders beside a bucket without a name under `obj/`: names are in form, each folder stands for no command and no pair, and
/// the world that they show is sound. So a program may begin (`IsGood`).
pub fn new_folders_are_good()
    ensures names { (objects : Objects) → HasNoShared objects → NamesInForm objects }
    ensures each { (folder : Folder) (objects : Objects) (store : ℕ) → IsNew folder → StandsForSome folder objects store }
    ensures sound { (words : ℕ → Words) (objects : Objects) → HasNoShared objects
        → ((store : ℕ) → IsStore store → words store ≡ None) → IsSound (closed_world words objects) }
{}

/// The world that words show is steady where it is sound. So where a program may begin, each choice of images shows a steady one.
pub fn good_is_steady()
    ensures { (words : ℕ → Words) (objects : Objects) → IsSound (closed_world words objects) → IsSteady (closed_world words objects) }
{}

/// The objects that a folder's words name are in the bucket beside which it stands for something, and beside any bucket in which
/// these have the same bytes it stands for the same.
pub fn stands_for_alike()
    ensures there { (objects : Objects) (folder : Folder) (id n : ℕ) (m : Map) → StandsFor folder objects id n m
        → (words : Words) → Shows folder id words → All (λ name. IsSome (get objects name)) (named_by words) }
    ensures alike { (one other : Objects) (folder : Folder) (id n : ℕ) (m : Map) → StandsFor folder one id n m
        → ((words : Words) → Shows folder id words → StaysNamed words one other) → StandsFor folder other id n m }
{}
