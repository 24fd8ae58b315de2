ghost use Rattle.std.specs.Prelude.{◌≡◌, ◌⊎◌, ℕ, List, [], true, None, IfErr, IfOk, OnOk, map, string_bytes};
ghost use Rattle.std.specs.List.{Contains};
ghost use Rattle.pb_catalog.specs.Calls.{IsOf};
ghost use Rattle.pb_catalog.specs.Catalog.{EachCatalogue};
ghost use Rattle.pb_devices.specs.Contents.{Folder, IsImage, IsSettled, KeepsOthers, KeptBut};
ghost use Rattle.pb_devices.specs.Counts.{HasCause, HasCauseAs};
ghost use Rattle.pb_gate_log.specs.NewFolder.{IsNew};
ghost use Rattle.pb_gate_log.specs.Payloads.{payloads_in};
ghost use Rattle.pb_manifest.specs.Manifest.{EachManifest, IsNumbered, KeepsAllBut, SaysFolder, catalogue_name, manifest_name};
ghost use Rattle.pb_manifest.specs.Numbers.{IsFolded};
ghost use Rattle.pb_manifest.specs.Steps.{IsLogOf};
ghost use Rattle.pb_names.specs.Identity.{IsStore};
ghost use Rattle.pb_names.specs.NumberedFile.{IsNumberedFile};
ghost use Rattle.pb_names.specs.Spelling.{current_name, file_name};
ghost use Rattle.pb_names.specs.declared.file_kind.FileKind.TheVariants.{Log};
ghost use Rattle.pb_recover.specs.Calls.{AreGone, IsCalm, IsCatalogueOrLog, IsMaking, IsNoVerdict, IsOpenFault, IsOpenedOf, Removes, first_edit};
ghost use Rattle.pb_recover.specs.Files.{KeepsFiles};
ghost use Rattle.pb_recover.specs.First.{first_version};
ghost use Rattle.pb_recover.specs.Reopened.{IsFolderName, Reopens};

use crate::open_error::OpenError;
use crate::recovered::Recovered;
use crate::sweep::list;
use pb_catalog::Catalog;
use pb_devices::{Disk, Failed, Fault};
use pb_edit::{Backings, Deletions, Edit, Numbers, Physicals, Virtuals};
use pb_gate_log::GateLog;
use pb_manifest::{CommitError, Manifest};
use pb_memtable::Memtable;
use pb_names::{FileKind, file, file_of};
use pb_provider::Provider;
use pb_version::Version;
use std::alloc::Global;

/// Makes a new store in a new folder of which nothing is pending: the catalogue 2, the log 3, and the manifest 1. Numbered files
/// that lie there go first.
pub(crate) fn make_new<D: Disk>(
    alloc: Global,
    disk: &mut D,
    id: u64,
) -> Result<Recovered, OpenError>
    requires store { IsStore id }
    requires calm { D.told ≡ true → IsCalm (D.contents disk.old) }
    requires new { D.told ≡ true → IsNew (D.contents disk.old).seen }
    ensures keeps { D.told ≡ true → IfOk result (λ made. KeepsFiles made (D.contents disk.new)) }
    ensures opened { IfOk result (IsOpenedOf id) }
    ensures starts { IfOk result (λ made. made.manifest.next ≡ 4) }
    ensures count { IfOk result (λ made. made.accepted ≡ 0) }
    ensures known { IfErr result IsNoVerdict }
    ensures others { D.told ≡ true → KeptBut IsFolderName (D.contents disk.old) (D.contents disk.new) }
    ensures reopens { D.told ≡ true → Reopens id (D.contents disk.old) (D.contents disk.new) }
    ensures cause { HasCauseAs IsOpenFault (D.fault_count disk.old) (D.fault_count disk.new) result }
{
    clear(alloc, disk)?;
    let made = make_files(alloc, disk, id)?;
    Ok(made)
}

/// Removes all numbered files, in the list's order, and waits until that is durable.
fn clear<D: Disk>(alloc: Global, disk: &mut D) -> Result<(), OpenError>
    ensures gone { D.told ≡ true → OnOk result (AreGone IsNumberedFile (D.contents disk.new)) }
    ensures calm { D.told ≡ true → OnOk result (IsCalm (D.contents disk.new)) }
    ensures removes { D.told ≡ true → Removes IsNumberedFile (D.contents disk.old) (D.contents disk.new) }
    ensures known { IfErr result IsNoVerdict }
    ensures cause { HasCauseAs IsOpenFault (D.fault_count disk.old) (D.fault_count disk.new) result }
{
    let names = list(alloc, disk)?;
    remove_numbered(disk, names.as_slice())?;
    disk.barrier()?;
    Ok(())
}

/// Removes the numbered files among these.
fn remove_numbered<D: Disk>(disk: &mut D, names: &[String]) -> Result<(), Failed>
    ensures gone { D.told ≡ true → OnOk result ((name : List ℕ) → Contains (map string_bytes names.now) name
        → IsNumberedFile name → (D.contents disk.new).seen name ≡ None) }
    ensures removes { D.told ≡ true → Removes IsNumberedFile (D.contents disk.old) (D.contents disk.new) }
    ensures cause { HasCause (D.fault_count disk.old) (D.fault_count disk.new) result }
{
    for name in names {
        remove_if_numbered(disk, name.as_str())?;
    }
    Ok(())
}

fn remove_if_numbered<D: Disk>(disk: &mut D, name: &str) -> Result<(), Failed>
    ensures gone { D.told ≡ true → OnOk result (IsNumberedFile name.now → (D.contents disk.new).seen name.now ≡ None) }
    ensures removes { D.told ≡ true → Removes IsNumberedFile (D.contents disk.old) (D.contents disk.new) }
    ensures cause { HasCause (D.fault_count disk.old) (D.fault_count disk.new) result }
{
    if file_of(name).is_none() {
        return Ok(());
    }
    disk.remove(name)?;
    Ok(())
}

/// Makes the files of a new store where no numbered file is.
fn make_files<D: Disk>(alloc: Global, disk: &mut D, id: u64) -> Result<Recovered, OpenError>
    requires store { IsStore id }
    requires calm { D.told ≡ true → IsCalm (D.contents disk.old) }
    requires new { D.told ≡ true → IsNew (D.contents disk.old).seen }
    requires gone { D.told ≡ true → AreGone IsNumberedFile (D.contents disk.old) }
    ensures keeps { D.told ≡ true → IfOk result (λ made. KeepsFiles made (D.contents disk.new)) }
    ensures opened { IfOk result (IsOpenedOf id) }
    ensures starts { IfOk result (λ made. made.manifest.next ≡ 4) }
    ensures count { IfOk result (λ made. made.accepted ≡ 0) }
    ensures known { IfErr result IsNoVerdict }
    ensures others { D.told ≡ true → KeptBut IsFolderName (D.contents disk.old) (D.contents disk.new) }
    ensures making { D.told ≡ true → IsMaking id (D.contents disk.new) }
    ensures cause { HasCauseAs IsOpenFault (D.fault_count disk.old) (D.fault_count disk.new) result }
{
    // Both stand whole before `CURRENT` names the manifest that names them.
    let (catalog, log) = make_logs(alloc, disk, id)?;
    let (manifest, version) = make_manifest(alloc, disk)?;
    let provider = Provider::new(alloc, id, catalog, &version)?;
    Ok(Recovered {
        version,
        manifest,
        provider,
        log,
        memtable: Memtable::new(alloc),
        accepted: 0,
    })
}

/// Makes the catalogue 2 and the log 3.
fn make_logs<D: Disk>(alloc: Global, disk: &mut D, id: u64) -> Result<(Catalog, GateLog), OpenError>
    requires store { IsStore id }
    requires catalogue { D.told ≡ true → (D.contents disk.old).seen (catalogue_name 2) ≡ None }
    requires log { D.told ≡ true → (D.contents disk.old).seen (file_name Log 3) ≡ None }
    ensures catalogue { D.told ≡ true → IfOk result (λ made. EachCatalogue made.0 (D.contents disk.new)) }
    ensures own { IfOk result (λ made. IsOf id (catalogue_name 2) made.0) }
    ensures bare { IfOk result (λ made. made.0.entries ≡ []) }
    ensures log { D.told ≡ true → IfOk result (λ made. IsLogOf (file_name Log 3) [] made.1 (D.contents disk.new)) }
    ensures others { D.told ≡ true → KeptBut (IsCatalogueOrLog 2 3) (D.contents disk.old) (D.contents disk.new) }
    ensures known { IfErr result IsNoVerdict }
    ensures cause { HasCauseAs IsOpenFault (D.fault_count disk.old) (D.fault_count disk.new) result }
{
    let catalog = make_catalogue(alloc, disk, id)?;
    let log = GateLog::create(disk, file(FileKind::Log, 3))?;
    Ok((catalog, log))
}

fn make_catalogue<D: Disk>(alloc: Global, disk: &mut D, id: u64) -> Result<Catalog, OpenError>
    requires store { IsStore id }
    requires absent { D.told ≡ true → (D.contents disk.old).seen (catalogue_name 2) ≡ None }
    ensures kept { D.told ≡ true → IfOk result (λ catalog. EachCatalogue catalog (D.contents disk.new)) }
    ensures own { IfOk result (IsOf id (catalogue_name 2)) }
    ensures bare { IfOk result (λ catalog. catalog.entries ≡ []) }
    ensures others { D.told ≡ true → KeepsOthers (D.contents disk.old) (D.contents disk.new) (catalogue_name 2) }
    ensures known { IfErr result IsNoVerdict }
    ensures cause { HasCauseAs IsOpenFault (D.fault_count disk.old) (D.fault_count disk.new) result }
{
    match Catalog::create(alloc, disk, file(FileKind::Catalogue, 2), id) {
        Ok(catalog) => Ok(catalog),
        Err(Fault::Disk) => Err(OpenError::Disk),
        Err(_) => Err(OpenError::NoMemory),
    }
}

/// Makes the manifest 1 of the first edit, and names it in `CURRENT`. It draws 4 first.
fn make_manifest<D: Disk>(alloc: Global, disk: &mut D) -> Result<(Manifest, Version), OpenError>
    requires absent { D.told ≡ true → (D.contents disk.old).seen (manifest_name 1) ≡ None }
    requires settled { D.told ≡ true → IsSettled (D.contents disk.old) current_name }
    ensures kept { D.told ≡ true → IfOk result (λ made. EachManifest made.0 made.1 (D.contents disk.new)) }
    ensures version { IfOk result (λ made. made.1 ≡ first_version) }
    ensures numbers { IfOk result (λ made. IsNumbered 1 2 4 made.0) }
    ensures folded { IfOk result (λ made. IsFolded made.1) }
    ensures crash { D.told ≡ true → (folder : Folder) → IsImage (D.contents disk.new) folder
        → (payloads_in (folder current_name) ≡ payloads_in ((D.contents disk.old).seen current_name)) ⊎ SaysFolder 1 2 first_version folder }
    ensures others { D.told ≡ true → KeepsAllBut (D.contents disk.old) (D.contents disk.new) (manifest_name 1) current_name }
    ensures known { IfErr result IsNoVerdict }
    ensures cause { HasCauseAs IsOpenFault (D.fault_count disk.old) (D.fault_count disk.new) result }
{
    let first = first_edit(alloc);
    match Manifest::create(alloc, disk, 1, 2, 4, &first) {
        Ok((manifest, version)) => Ok((manifest, version)),
        Err(CommitError::Disk) => Err(OpenError::Disk),
        Err(CommitError::NoMemory) => Err(OpenError::NoMemory),
        // The first edit breaks no rule, and its numbers end far below 2^62.
        Err(CommitError::Broken(_)) => unreachable!(),
        Err(CommitError::Spent) => unreachable!(),
    }
}

/// No command, the numbers below 64 reserved, and the log 3. It takes no memory.
fn first_edit(alloc: Global) -> Edit
    ensures { result ≡ first_edit }
{
    Edit {
        accepted: Some(0),
        next: Some(64),
        log: Some(3),
        flushed: Some(0),
        format: Some(1),
        deleted: Deletions::from_vec(Vec::new(alloc)),
        physical: Physicals::from_vec(Vec::new(alloc)),
        virtuals: Virtuals::from_vec(Vec::new(alloc)),
        created: Backings::from_vec(Vec::new(alloc)),
        removed: Numbers::from_vec(Vec::new(alloc)),
    }
}
