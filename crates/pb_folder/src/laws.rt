//! What holds of all folders. Each function does nothing: its contract is a law of the definitions that the contracts of the
//! crates above cite.
ghost use Rattle.std.specs.Prelude.{◌≡◌, ◌↔◌, ℕ, List, [], ◌∷◌, ◌++◌, map};
ghost use Rattle.std.specs.FinMap.{empty, insert};
ghost use Rattle.pb_devices.specs.Contents.{Folder};
ghost use Rattle.pb_devices.specs.Objects.{Objects};
ghost use Rattle.pb_keys.specs.Map.{Map};
ghost use Rattle.pb_gate_log.specs.NewFolder.{IsNew};
ghost use Rattle.pb_gate_log.specs.Payloads.{payloads_in};
ghost use Rattle.pb_names.specs.Spelling.{current_name};
ghost use Rattle.pb_payloads.specs.Catalogue.{Entries};
ghost use Rattle.pb_payloads.specs.Current.{Pointer, SaysCurrent};
ghost use Rattle.pb_payloads.specs.Log.{LogEntry};
ghost use Rattle.pb_rows.specs.Changing.{after, changed};
ghost use Rattle.pb_rows.specs.Layer.{KeyLayer};
ghost use Rattle.pb_version.specs.Version.{VersionView};
ghost use Rattle.pb_folder.specs.Alike.{Alike, AlikeObjects};
ghost use Rattle.pb_folder.specs.Held.{HoldsVersion};
ghost use Rattle.pb_folder.specs.Meaning.{after_log, changing_of};
ghost use Rattle.pb_folder.specs.Said.{Said, Says};
ghost use Rattle.pb_folder.specs.StandsFor.{Means, StandsFor};
ghost use Rattle.pb_folder.specs.Listed.{folder_of};
ghost use Rattle.pb_folder.specs.Examples.{store_with_log, empty_log, log_of_a_set, flushed_files};

pub mod shown;

/// A folder beside a bucket stands for at most one count and one map, whichever store it is read for.
pub fn one_meaning()
    ensures { (folder : Folder) (objects : Objects) (id other n k : ℕ) (m l : Map)
        → StandsFor folder objects id n m → StandsFor folder objects other k l → (n ≡ k) × (m ≡ l) }
{}

/// Where each folder's words name the same lists and the same local tables in another folder, that stands for the same:
/// whatever else lies there, and whatever stands behind the last gate of a log.
pub fn named_files_count()
    ensures { (one other : Folder) (objects : Objects) (id n : ℕ) (m : Map) → StandsFor one objects id n m
        → ((said : Said) → Says one id said → Alike said one other) → (IsNew one → IsNew other) → StandsFor other objects id n m }
{}

/// The objects that the entries give for what the version stores count, and no others; so without entries any bucket serves.
pub fn named_objects_count()
    ensures held { (one other : Objects) (folder : Folder) (entries : Entries) (version : VersionView) (layers : ℕ → KeyLayer)
        → AlikeObjects entries version one other → HoldsVersion folder one entries version layers → HoldsVersion folder other entries version layers }
    ensures stands { (one other : Objects) (folder : Folder) (id n : ℕ) (m : Map)
        → ((said : Said) → Says folder id said → AlikeObjects said.entries said.version one other)
        → StandsFor folder one id n m → StandsFor folder other id n m }
    ensures bare { (one other : Objects) (folder : Folder) (version : VersionView) (layers : ℕ → KeyLayer)
        → HoldsVersion folder one [] version layers → HoldsVersion folder other [] version layers }
    ensures any { (one other : Objects) (folder : Folder) (id n : ℕ) (m : Map) → StandsFor folder one id n m → StandsFor folder other id n m }
{}

/// Where `CURRENT` says a pointer, a folder stands for what its files mean, and for nothing else.
pub fn it_isnt_new()
    ensures { (folder : Folder) (objects : Objects) (id n : ℕ) (m : Map) (pointer : Pointer) → SaysCurrent (payloads_in (folder current_name)) pointer
        → StandsFor folder objects id n m ↔ Means folder objects id n m }
{}

/// One more command of a log does to its map what it does to any.
pub fn the_log_goes_on()
    ensures one_more { (layers : ℕ → KeyLayer) (m : Map) (log : List LogEntry) (entry : LogEntry)
        → after_log layers m (log ++ entry ∷ []) ≡ after (after_log layers m log) (changing_of layers entry.command) }
    ensures changed { (layers : ℕ → KeyLayer) (m : Map) (log : List LogEntry)
        → after_log layers m log ≡ changed m (map (λ entry. changing_of layers entry.command) log) }
{}

/// An empty folder and that of a new store stand for no command and no pair, and then a set and a flush for theirs.
pub fn the_first_folders()
    ensures nothing { (objects : Objects) (id : ℕ) → StandsFor (folder_of []) objects id 0 empty }
    ensures new { (objects : Objects) → StandsFor (folder_of (store_with_log empty_log)) objects 1 0 empty }
    ensures set { (objects : Objects) → StandsFor (folder_of (store_with_log log_of_a_set)) objects 1 1 (insert empty (97 ∷ []) (49 ∷ [])) }
    ensures flush { (objects : Objects) → StandsFor (folder_of flushed_files) objects 1 2 (insert empty (97 ∷ []) (49 ∷ [])) }
{}
