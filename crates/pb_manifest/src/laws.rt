//! What holds of all manifests. Each function does nothing: its contract is a law of the definitions that the contracts of
//! this crate and of those above cite.
ghost use Rattle.std.specs.Prelude.{◌≡◌};
ghost use Rattle.pb_devices.specs.Contents.{Folder, IsImage, KeptAt};
ghost use Rattle.pb_manifest.specs.declared.numbers.TheConstants.{BLOCK};
ghost use Rattle.pb_manifest.specs.declared.rotation.TheConstants.{ROTATED_LEN, ROTATED_TIMES};
ghost use Rattle.pb_manifest.specs.Manifest.{EachManifest, ManifestView, SaysFolder, manifest_name};
ghost use Rattle.pb_manifest.specs.Numbers.{IsFolded};
ghost use Rattle.pb_names.specs.Spelling.{current_name};
ghost use Rattle.pb_version.specs.Version.{VersionView};

use pb_devices::Disk;

/// Each image of a folder whose manifest is at rest says the version.
pub fn each_says<D: Disk>(disk: &D)
    ensures { (manifest : ManifestView) (version : VersionView) → EachManifest manifest version (D.contents disk.now)
        → (folder : Folder) → IsImage (D.contents disk.now) folder → SaysFolder manifest.number manifest.catalogue version folder }
{}

/// A manifest is kept wherever its two files are: a call on any other file leaves it.
pub fn manifest_kept<D: Disk>(old: &D, new: &D)
    ensures { (manifest : ManifestView) (version : VersionView) → KeptAt (D.contents old.now) (D.contents new.now) current_name
        → KeptAt (D.contents old.now) (D.contents new.now) (manifest_name manifest.number)
        → EachManifest manifest version (D.contents old.now) → EachManifest manifest version (D.contents new.now) }
{}

/// A block has 64 numbers.
pub fn a_block_has_64_numbers()
    ensures { BLOCK ≡ 64 }
{}

/// A manifest is rotated from 1,048,576 bytes on, and where it has four times the bytes of its first payload.
pub fn when_a_manifest_is_rotated()
    ensures len { ROTATED_LEN ≡ 1048576 }
    ensures times { ROTATED_TIMES ≡ 4 }
{}

/// A version that edits fold to has format 1, so no reservation breaks a rule of it.
pub fn a_folded_version_has_format_1()
    ensures { (version : VersionView) → IsFolded version → version.five.format ≡ 1 }
{}
