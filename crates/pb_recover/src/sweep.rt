ghost use Rattle.std.specs.Prelude.{◌≡◌, ℕ, List, true, false, None, IfErr, IfOk, OnOk, map, string_bytes};
ghost use Rattle.std.specs.List.{Contains};
ghost use Rattle.pb_devices.specs.Counts.{HasCause, HasCauseAs};
ghost use Rattle.pb_devices.specs.DiskCalls.{Stays};
ghost use Rattle.pb_devices.specs.Reads.{AreNames};
ghost use Rattle.pb_recover.specs.Calls.{AreGone, IsCalm, IsNoVerdict, IsOpenFault, IsUnnamed, Removes};

use crate::open_error::OpenError;
use pb_devices::{Disk, Failed, ListError};
use pb_names::{FileKind, file_of};
use pb_provider::is_stored;
use pb_version::Version;
use std::alloc::Global;

/// Removes each numbered file that words with this manifest, this catalogue and this version don't name, in the list's order. A
/// barrier follows where one was removed.
pub(crate) fn sweep<D: Disk>(
    alloc: Global,
    disk: &mut D,
    manifest: u64,
    catalogue: u64,
    version: &Version,
) -> Result<(), OpenError>
    requires { D.told ≡ true → IsCalm (D.contents disk.old) }
    ensures gone { D.told ≡ true → OnOk result (AreGone (IsUnnamed manifest catalogue version.now) (D.contents disk.new)) }
    ensures calm { D.told ≡ true → OnOk result (IsCalm (D.contents disk.new)) }
    ensures removes { D.told ≡ true → Removes (IsUnnamed manifest catalogue version.now) (D.contents disk.old) (D.contents disk.new) }
    ensures known { IfErr result IsNoVerdict }
    ensures cause { HasCauseAs IsOpenFault (D.fault_count disk.old) (D.fault_count disk.new) result }
{
    let names = list(alloc, disk)?;
    if !remove_unnamed(disk, names.as_slice(), manifest, catalogue, version)? {
        return Ok(());
    }
    disk.barrier()?;
    Ok(())
}

/// The names of the files that are there.
pub(crate) fn list<D: Disk>(alloc: Global, disk: &mut D) -> Result<Vec<String>, OpenError>
    ensures ok { D.told ≡ true → IfOk result (λ names. AreNames (map string_bytes names.items) (D.contents disk.old).seen) }
    ensures stays { D.told ≡ true → Stays (D.contents disk.old) (D.contents disk.new) }
    ensures known { IfErr result IsNoVerdict }
    ensures cause { HasCauseAs IsOpenFault (D.fault_count disk.old) (D.fault_count disk.new) result }
{
    match disk.list(alloc) {
        Ok(names) => Ok(names),
        Err(ListError::Failed) => Err(OpenError::Disk),
        Err(ListError::NoMemory) => Err(OpenError::NoMemory),
    }
}

/// Removes those of these files that are left over, and tells whether there was one.
fn remove_unnamed<D: Disk>(
    disk: &mut D,
    names: &[String],
    manifest: u64,
    catalogue: u64,
    version: &Version,
) -> Result<bool, Failed>
    ensures gone { D.told ≡ true → OnOk result ((name : List ℕ) → Contains (map string_bytes names.now) name
        → IsUnnamed manifest catalogue version.now name → (D.contents disk.new).seen name ≡ None) }
    ensures none { D.told ≡ true → IfOk result (λ removed. removed ≡ false → Stays (D.contents disk.old) (D.contents disk.new)) }
    ensures removes { D.told ≡ true → Removes (IsUnnamed manifest catalogue version.now) (D.contents disk.old) (D.contents disk.new) }
    ensures cause { HasCause (D.fault_count disk.old) (D.fault_count disk.new) result }
{
    let mut removed = false;
    for name in names {
        let gone = remove_if_unnamed(disk, name.as_str(), manifest, catalogue, version)?;
        removed = removed || gone;
    }
    Ok(removed)
}

/// Removes a file if it is left over, and tells whether it was.
fn remove_if_unnamed<D: Disk>(
    disk: &mut D,
    name: &str,
    manifest: u64,
    catalogue: u64,
    version: &Version,
) -> Result<bool, Failed>
    ensures gone { D.told ≡ true → OnOk result (IsUnnamed manifest catalogue version.now name.now → (D.contents disk.new).seen name.now ≡ None) }
    ensures none { D.told ≡ true → IfOk result (λ removed. removed ≡ false → Stays (D.contents disk.old) (D.contents disk.new)) }
    ensures removes { D.told ≡ true → Removes (IsUnnamed manifest catalogue version.now) (D.contents disk.old) (D.contents disk.new) }
    ensures cause { HasCause (D.fault_count disk.old) (D.fault_count disk.new) result }
{
    if !is_unnamed(name, manifest, catalogue, version) {
        return Ok(false);
    }
    disk.remove(name)?;
    Ok(true)
}

/// Whether the name is that of a numbered file that words with this manifest, this catalogue and this version don't name.
fn is_unnamed(name: &str, manifest: u64, catalogue: u64, version: &Version) -> bool
    ensures yes { result ≡ true → IsUnnamed manifest catalogue version.now name.now }
    ensures no { result ≡ false → IsUnnamed manifest catalogue version.now name.now → ⊥ }
{
    let five = version.five();
    let Some(file) = file_of(name) else {
        return false;
    };
    // A number of 2^64 or more is nobody's.
    let Some(number) = file.number else {
        return true;
    };
    match file.kind {
        FileKind::Manifest => number != manifest,
        FileKind::Catalogue => number != catalogue,
        FileKind::Log => number != five.log,
        FileKind::Table => !is_stored(version, number),
    }
}
