ghost use Rattle.std.specs.Prelude.{◌≡◌, ◌+◌, ◌≤◌, ℕ, List, true, false, None, IfOk, IfSome, OnOk};
ghost use Rattle.pb_crash_tests.specs.Driven.{IsUnmade, NeverStood};
ghost use Rattle.pb_crash_tests.specs.Steps.{Says, SaysAfter, after_both, after_first};
ghost use Rattle.pb_devices.specs.Contents.{Folder, IsImage, KeepsOthers};
ghost use Rattle.pb_devices.specs.DiskCalls.{Stays};
ghost use Rattle.pb_edit.specs.Grammar.{IsEdit};
ghost use Rattle.pb_manifest.specs.Manifest.{EachManifest, IsNumbered, manifest_name};
ghost use Rattle.pb_manifest.specs.Rotation.{is_mostly_history};

use pb_devices::{Disk, Failed};
use pb_edit::Edit;
use pb_manifest::laws::each_says;
use pb_manifest::{CommitError, Manifest, ManifestError};
use pb_names::{FileKind, Name, file};
use pb_version::Version;
use std::alloc::Global;

/// Makes a file of these bytes: two device calls. Nothing of it is durable before a barrier.
pub fn make_file<D: Disk>(disk: &mut D, name: Name, bytes: &[u8]) -> Result<(), Failed>
    requires { D.told ≡ true → (D.contents disk.old).seen name ≡ None }
    ensures { D.told ≡ true → KeepsOthers (D.contents disk.old) (D.contents disk.new) name }
{
    let file = name.as_str();
    disk.create(file)?;
    disk.write_at(file, 0, bytes)?;
    Ok(())
}

/// Makes the file of the catalogue 2 in a new folder: two device calls.
pub fn catalogue_made<D: Disk>(disk: &mut D) -> Result<(), Failed>
    requires { D.told ≡ true → (name : List ℕ) → NeverStood (D.contents disk.old) name }
    ensures { D.told ≡ true → OnOk result (IsUnmade (D.contents disk.new)) }
{
    make_file(disk, file(FileKind::Catalogue, 2), b"")
}

/// Makes the manifest 1 after a barrier, in a folder where `CURRENT` may stand.
pub fn created<D: Disk>(
    alloc: Global,
    disk: &mut D,
    first: &Edit,
) -> Result<(Manifest, Version), CommitError>
    requires first { IsEdit first.now }
    requires next { IfSome first.now.next (λ end. 4 ≤ end) }
    requires absent { D.told ≡ true → (D.contents disk.old).seen (manifest_name 1) ≡ None }
    ensures kept { D.told ≡ true → IfOk result (λ made. EachManifest made.0 made.1 (D.contents disk.new)) }
    ensures version { IfOk result (λ made. made.1 ≡ after_first first.now) }
    ensures numbers { IfOk result (λ made. IsNumbered 1 2 4 made.0) }
    ensures new { IfOk result (λ made. is_mostly_history made.0.log.len made.0.first ≡ false) }
{
    let Ok(()) = disk.barrier() else {
        return Err(CommitError::Disk);
    };
    Manifest::create(alloc, disk, 1, 2, 4, first)
}

/// Makes the manifest 1 and commits an edit. After `Ok` each image of the folder says the version after both.
pub fn committed<D: Disk>(
    alloc: Global,
    disk: &mut D,
    first: &Edit,
    second: &Edit,
) -> Result<Version, CommitError>
    requires first { IsEdit first.now }
    requires next { IfSome first.now.next (λ end. 4 ≤ end) }
    requires second { IsEdit second.now }
    requires absent { D.told ≡ true → (D.contents disk.old).seen (manifest_name 1) ≡ None }
    ensures version { IfOk result (λ version. version ≡ after_both first.now second.now) }
    ensures says { D.told ≡ true → IfOk result (λ version.
        (folder : Folder) → IsImage (D.contents disk.new) folder → Says version folder) }
{
    let (mut manifest, mut version) = created(alloc, disk, first)?;
    manifest.commit(alloc, disk, &mut version, second)?;
    each_says(disk);
    Ok(version)
}

/// Makes the manifest 1, which names the catalogue 2 and draws 4 first; commits an edit; and draws 61 numbers. The answer is
/// how many of the three were acknowledged.
pub fn three_steps<D: Disk>(alloc: Global, disk: &mut D, first: &Edit, second: &Edit) -> usize
    requires first { IsEdit first.now }
    requires next { IfSome first.now.next (λ end. 4 ≤ end) }
    requires second { IsEdit second.now }
    requires new { D.told ≡ true → IsUnmade (D.contents disk.old) }
    ensures few { result ≤ 3 }
    ensures left { D.told ≡ true → (folder : Folder) → IsImage (D.contents disk.new) folder → SaysAfter first.now second.now result folder }
{
    let Ok(()) = disk.barrier() else {
        return 0;
    };
    let Ok((mut manifest, mut version)) = Manifest::create(alloc, disk, 1, 2, 4, first) else {
        return 0;
    };
    let Ok(()) = manifest.commit(alloc, disk, &mut version, second) else {
        return 1;
    };
    let Ok(_first) = manifest.draw(alloc, disk, &mut version, 61) else {
        return 2;
    };
    3
}

/// Opens the manifest of a folder after a barrier.
pub fn folder_reopened<D: Disk>(
    alloc: Global,
    disk: &mut D,
) -> Result<Option<(Manifest, Version)>, ManifestError>
    ensures { D.told ≡ true → IfOk result (λ found. IfSome found (λ opened. EachManifest opened.0 opened.1 (D.contents disk.new))) }
{
    disk.barrier()?;
    let found = Manifest::open(alloc, disk)?;
    Ok(found)
}

/// Opens the manifest of a folder after a barrier, draws numbers and commits an edit. None where there is no manifest, or the file
/// of the manifest that a rotation would make stands.
pub fn committed_behind<D: Disk>(
    alloc: Global,
    disk: &mut D,
    count: u64,
    edit: &Edit,
) -> Result<Option<(Manifest, Version)>, CommitError>
    requires { IsEdit edit.now }
    ensures { D.told ≡ true → IfOk result (λ found. IfSome found (λ made. EachManifest made.0 made.1 (D.contents disk.new))) }
{
    let Ok(Some((mut manifest, mut version))) = folder_reopened(alloc, disk) else {
        return Ok(None);
    };
    if !drawn_and_committed(alloc, disk, &mut manifest, &mut version, count, edit)? {
        return Ok(None);
    }
    Ok(Some((manifest, version)))
}

/// Draws numbers, asks for the file of the manifest that a rotation would make by one device call, and commits an edit. False,
/// and nothing is committed, where that file stands.
pub fn drawn_and_committed<D: Disk>(
    alloc: Global,
    disk: &mut D,
    manifest: &mut Manifest,
    version: &mut Version,
    count: u64,
    edit: &Edit,
) -> Result<bool, CommitError>
    requires edit { IsEdit edit.now }
    requires kept { D.told ≡ true → EachManifest manifest.old version.old (D.contents disk.old) }
    ensures kept { D.told ≡ true → OnOk result (EachManifest manifest.new version.new (D.contents disk.new)) }
{
    let first = manifest.draw(alloc, disk, version, count)?;
    if is_taken(disk, first, count)? {
        return Ok(false);
    }
    manifest.commit(alloc, disk, version, edit)?;
    Ok(true)
}

/// Whether there is a manifest of the number behind so many from the first on: one device call.
fn is_taken<D: Disk>(disk: &mut D, first: u64, count: u64) -> Result<bool, CommitError>
    ensures free { D.told ≡ true → IfOk result (λ taken. taken ≡ false → (D.contents disk.new).seen (manifest_name (first + count)) ≡ None) }
    ensures stays { D.told ≡ true → Stays (D.contents disk.old) (D.contents disk.new) }
{
    let Some(number) = first.checked_add(count) else {
        return Ok(true);
    };
    let name = file(FileKind::Manifest, number);
    let found = disk.len(name.as_str())?;
    Ok(found.is_some())
}
