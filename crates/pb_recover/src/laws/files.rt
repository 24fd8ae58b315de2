//! What the disk of an open store holds of its files, and which calls leave that.
ghost use Rattle.std.specs.Prelude.{◌≡◌, ◌⊎◌, ◌↔◌, ℕ, true, List, Some};
ghost use Rattle.std.specs.List.{Contains};
ghost use Rattle.pb_devices.specs.Contents.{Folder, IsImage, KeepsOthers};
ghost use Rattle.pb_names.specs.Spelling.{file_name};
ghost use Rattle.pb_names.specs.declared.file_kind.FileKind.{FileKind};
ghost use Rattle.pb_names.specs.declared.file_kind.FileKind.TheVariants.{Catalogue, Log, Table};
ghost use Rattle.pb_payloads.specs.Catalogue.{stands};
ghost use Rattle.pb_folder.specs.Said.{Says};
ghost use Rattle.pb_folder.specs.Shown.{Words, Shows};
ghost use Rattle.pb_recover.specs.Files.{IsAbsent, IsFree, IsNoLog, IsReady, IsUnclaimed, KeepsBeside, KeepsFiles, StoreFiles, said_of, with_unmade};

use pb_devices::Disk;

/// Each image of the folder says what the store's parts are, and shows these words alone.
pub fn each_image_says<D: Disk>(disk: &D)
    ensures says { (files : StoreFiles) (kept : KeepsFiles files (D.contents disk.now)) → IsReady files
        → (folder : Folder) → IsImage (D.contents disk.now) folder → Says folder files.provider.catalogue.id (said_of files kept.entries) }
    ensures shows { (files : StoreFiles) (kept : KeepsFiles files (D.contents disk.now)) → IsReady files
        → (folder : Folder) → IsImage (D.contents disk.now) folder → (words : Words)
        → Shows folder files.provider.catalogue.id words ↔ (words ≡ Some (said_of files kept.entries)) }
{}

/// A call on one file that is no log of the store leaves its files, where that file has neither a free number nor, as a
/// table, an entry's; or where none is left of it.
pub fn files_are_kept<D: Disk>(old: &D, new: &D)
    ensures { (files : StoreFiles) (name : List ℕ) → KeepsOthers (D.contents old.now) (D.contents new.now) name → IsNoLog files name
        → IsUnclaimed files name ⊎ IsAbsent (D.contents new.now) name
        → KeepsFiles files (D.contents old.now) → KeepsFiles files (D.contents new.now) }
{}

/// A call on the log leaves all that isn't the log's.
pub fn beside_the_log<D: Disk>(old: &D, new: &D)
    ensures { (files : StoreFiles) → KeepsOthers (D.contents old.now) (D.contents new.now) (file_name Log files.version.five.log)
        → KeepsFiles files (D.contents old.now) → KeepsBeside files (D.contents new.now) }
{}

/// A drawn number is made once its file may stand: the others that are unmade stay free.
pub fn a_number_is_made<D: Disk>(old: &D, new: &D)
    ensures fewer { (files : StoreFiles) (unmade : List ℕ) → ((m : ℕ) → Contains unmade m → Contains files.unmade m)
        → KeepsFiles files (D.contents old.now) → KeepsFiles (with_unmade unmade files) (D.contents old.now) }
    ensures made { (files : StoreFiles) (unmade : List ℕ) (kind : FileKind) (n : ℕ) → IsReady files
        → ((m : ℕ) → Contains unmade m → Contains files.unmade m) → Contains files.unmade n → (Contains unmade n → ⊥)
        → (kind ≡ Catalogue → ⊥) → (kind ≡ Table → stands n files.provider.catalogue.entries ≡ true → ⊥)
        → KeepsOthers (D.contents old.now) (D.contents new.now) (file_name kind n)
        → KeepsFiles files (D.contents old.now) → KeepsFiles (with_unmade unmade files) (D.contents new.now) }
{}
