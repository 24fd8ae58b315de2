//! What each step of an opening is: none does more to a folder than an opening may.
ghost use Rattle.std.specs.Prelude.{◌≡◌, ◌⊎◌, ◌<◌, ◌^◌, ℕ, true, List, IsSome};
ghost use Rattle.pb_devices.specs.Contents.{Folder, IsImage, IsSettled, KeptBut};
ghost use Rattle.pb_devices.specs.DiskCalls.{IsRemoved, Stays};
ghost use Rattle.pb_names.specs.NumberedFile.{IsNumberedFile};
ghost use Rattle.pb_names.specs.Spelling.{current_name, file_name};
ghost use Rattle.pb_names.specs.declared.file_kind.FileKind.{FileKind};
ghost use Rattle.pb_names.specs.declared.file_kind.FileKind.TheVariants.{Table};
ghost use Rattle.pb_gate_log.specs.Calls.{Opens};
ghost use Rattle.pb_gate_log.specs.NewFolder.{IsNew};
ghost use Rattle.pb_folder.specs.Said.{Said, Says};
ghost use Rattle.pb_manifest.specs.Found.{KeepsPayloads, KeepsUnnamed};
ghost use Rattle.pb_recover.specs.First.{first_said};
ghost use Rattle.pb_recover.specs.Reopened.{IsFolderName, IsGateLog, IsNamedBy, Reopens};

use pb_devices::Disk;

/// The current pointer, and each numbered file but a table, has the name of a gate log.
pub fn logs_have_names()
    ensures current { IsGateLog current_name }
    ensures numbered { (kind : FileKind) (n : ℕ) → (kind ≡ Table → ⊥) → n < 2 ^ 64 → IsGateLog (file_name kind n) }
{}

/// To open a gate log that is there, whether that succeeds or fails.
pub fn a_log_is_opened<D: Disk>(old: &D, new: &D)
    ensures { D.told ≡ true → (id : ℕ) (name : List ℕ) → IsGateLog name → IsSome ((D.contents old.now).seen name)
        → Opens name (D.contents old.now) (D.contents new.now) → Reopens id (D.contents old.now) (D.contents new.now) }
{}

/// To open the manifest after a barrier, whether that succeeds or fails.
pub fn a_manifest_is_opened<D: Disk>(old: &D, new: &D)
    ensures { D.told ≡ true → (id : ℕ) → ((name : List ℕ) → IsSettled (D.contents old.now) name)
        → KeepsPayloads (D.contents old.now) (D.contents new.now) → KeepsUnnamed (D.contents old.now) (D.contents new.now)
        → Reopens id (D.contents old.now) (D.contents new.now) }
{}

/// To make a new store of a new folder after a barrier, whether that succeeds or fails: where each image is new still, or says
/// the words of a new store.
pub fn a_new_store_is_made<D: Disk>(old: &D, new: &D)
    ensures { D.told ≡ true → (id : ℕ) → ((name : List ℕ) → IsSettled (D.contents old.now) name) → IsNew (D.contents old.now).seen
        → KeptBut (λ name. IsFolderName name) (D.contents old.now) (D.contents new.now)
        → ((folder : Folder) → IsImage (D.contents new.now) folder → IsNew folder ⊎ Says folder id first_said)
        → Reopens id (D.contents old.now) (D.contents new.now) }
{}

/// To remove a numbered file that the words of every image leave unnamed, whether that succeeds or fails.
pub fn a_leftover_is_removed<D: Disk>(old: &D, new: &D)
    ensures { D.told ≡ true → (id : ℕ) (said : Said) (name : List ℕ) → IsNumberedFile name → (IsNamedBy said name → ⊥)
        → ((folder : Folder) → IsImage (D.contents old.now) folder → Says folder id said)
        → IsRemoved (D.contents old.now) (D.contents new.now) name ⊎ Stays (D.contents old.now) (D.contents new.now)
        → Reopens id (D.contents old.now) (D.contents new.now) }
{}

/// Words that each image says are said by each image that an opening leaves: so a sweep goes on by the words that were read.
pub fn the_words_stay<D: Disk>(old: &D, new: &D)
    ensures { (id : ℕ) (said : Said) → ((folder : Folder) → IsImage (D.contents old.now) folder → Says folder id said)
        → Reopens id (D.contents old.now) (D.contents new.now)
        → (folder : Folder) → IsImage (D.contents new.now) folder → Says folder id said }
{}
