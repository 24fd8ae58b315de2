ghost use Rattle.std.specs.Prelude.{◌≡◌, ◌⊎◌, ℕ, ◌+◌, ◌++◌, ◌∷◌, ◌<◌, ◌^◌, [], true, List, length, Option, None, Err, IfErr, IfOk};
ghost use Rattle.pb_devices.specs.Contents.{Folder, IsImage, IsSettled, KeepsOthers, MayLeave};
ghost use Rattle.pb_devices.specs.Counts.{HasCauseAs};
ghost use Rattle.pb_edit.specs.Grammar.{IsEdit, edit_spelling};
ghost use Rattle.pb_gate_log.specs.Calls.{IsOpenedOrMade, OpensOrMakes};
ghost use Rattle.pb_gate_log.specs.Payloads.{HasList, payloads_in};
ghost use Rattle.pb_manifest.specs.Faults.{IsCommitFault};
ghost use Rattle.pb_manifest.specs.Judged.{Judges};
ghost use Rattle.pb_manifest.specs.Manifest.{KeepsAllBut, manifest_name};
ghost use Rattle.pb_manifest.specs.Steps.{IsLogOf};
ghost use Rattle.pb_names.specs.Spelling.{current_name};
ghost use Rattle.pb_version.specs.Edited.{edited};
ghost use Rattle.pb_version.specs.Rules.{first_broken};
ghost use Rattle.pb_version.specs.Version.{empty_version};

use crate::CommitError;
use crate::append::append;
use pb_devices::{Disk, Fault};
use pb_edit::Edit;
use pb_gate_log::{GateLog, open_or_create};
use pb_names::{FileKind, Name, current, file};
use pb_version::Version;
use std::alloc::Global;

/// Applies the first edit, and spells it.
pub(crate) fn first_version(alloc: Global, first: &Edit) -> Result<(Version, Vec<u8>), CommitError>
    requires { IsEdit first.now }
    ensures judged { Judges (first_broken empty_version first.now) result }
    ensures version { IfOk result (λ made. made.0 ≡ edited empty_version first.now) }
    ensures spelled { IfOk result (λ made. made.1.items ≡ edit_spelling first.now) }
    ensures memory { result ≡ Err CommitError.Disk → ⊥ }
{
    let mut version = Version::empty(alloc);
    version.apply(alloc, first)?;
    let edit = first.spell(alloc)?;
    Ok((version, edit))
}

/// Makes the manifest's log of one edit, and then appends to `CURRENT` the payload that names it.
pub(crate) fn write_manifest<D: Disk>(
    alloc: Global,
    disk: &mut D,
    number: u64,
    edit: &[u8],
    pointer: &[u8],
) -> Result<(GateLog, GateLog), CommitError>
    requires low { number < 2 ^ 62 }
    requires absent { D.told ≡ true → (D.contents disk.old).seen (manifest_name number) ≡ None }
    requires settled { D.told ≡ true → IsSettled (D.contents disk.old) current_name }
    ensures len { IfOk result (λ logs. logs.0.len ≡ 6 + length edit.now) }
    ensures log { D.told ≡ true → IfOk result (λ logs. IsLogOf (manifest_name number) (edit.now ∷ []) logs.0 (D.contents disk.new)) }
    ensures current { D.told ≡ true → IfOk result (λ logs. IsLogOf current_name
        (payloads_in ((D.contents disk.old).seen current_name) ++ pointer.now ∷ []) logs.1 (D.contents disk.new)) }
    ensures crash { D.told ≡ true → (folder : Folder) → IsImage (D.contents disk.new) folder
        → (payloads_in (folder current_name) ≡ payloads_in ((D.contents disk.old).seen current_name))
        ⊎ (HasList (payloads_in ((D.contents disk.old).seen current_name) ++ pointer.now ∷ []) (folder current_name)
        × HasList (edit.now ∷ []) (folder (manifest_name number))) }
    ensures others { D.told ≡ true → KeepsAllBut (D.contents disk.old) (D.contents disk.new) (manifest_name number) current_name }
    ensures known { IfErr result (λ error. (error ≡ CommitError.Disk) ⊎ (error ≡ CommitError.NoMemory)) }
    ensures cause { HasCauseAs IsCommitFault (D.fault_count disk.old) (D.fault_count disk.new) result }
{
    // The manifest stands whole before `CURRENT` names it.
    let log = make_log(disk, file(FileKind::Manifest, number), edit)?;
    let current = append_pointer(alloc, disk, pointer)?;
    Ok((log, current))
}

/// Makes a log of one payload.
pub(crate) fn make_log<D: Disk>(
    disk: &mut D,
    file: Name,
    payload: &[u8],
) -> Result<GateLog, CommitError>
    requires { D.told ≡ true → (D.contents disk.old).seen file ≡ None }
    ensures ok { D.told ≡ true → IfOk result (λ log. IsLogOf file (payload.now ∷ []) log (D.contents disk.new)) }
    ensures len { IfOk result (λ log. log.len ≡ 6 + length payload.now) }
    ensures gate { IfOk result (λ log. log.gate ≡ 5 + length payload.now) }
    ensures others { D.told ≡ true → KeepsOthers (D.contents disk.old) (D.contents disk.new) file }
    ensures known { IfErr result (λ error. (error ≡ CommitError.Disk) ⊎ (error ≡ CommitError.NoMemory)) }
    ensures cause { HasCauseAs IsCommitFault (D.fault_count disk.old) (D.fault_count disk.new) result }
{
    let mut log = GateLog::create(disk, file)?;
    append(&mut log, disk, payload)?;
    Ok(log)
}

/// Makes `CURRENT`, or opens it where it stands, and appends a payload.
fn append_pointer<D: Disk>(
    alloc: Global,
    disk: &mut D,
    payload: &[u8],
) -> Result<GateLog, CommitError>
    requires { D.told ≡ true → IsSettled (D.contents disk.old) current_name }
    ensures ok { D.told ≡ true → IfOk result (λ log. IsLogOf current_name
        (payloads_in ((D.contents disk.old).seen current_name) ++ payload.now ∷ []) log (D.contents disk.new)) }
    ensures crash { D.told ≡ true → (image : Option (List ℕ)) → MayLeave (D.contents disk.new) current_name image
        → (payloads_in image ≡ payloads_in ((D.contents disk.old).seen current_name))
        ⊎ HasList (payloads_in ((D.contents disk.old).seen current_name) ++ payload.now ∷ []) image }
    ensures others { D.told ≡ true → KeepsOthers (D.contents disk.old) (D.contents disk.new) current_name }
    ensures known { IfErr result (λ error. (error ≡ CommitError.Disk) ⊎ (error ≡ CommitError.NoMemory)) }
    ensures cause { HasCauseAs IsCommitFault (D.fault_count disk.old) (D.fault_count disk.new) result }
{
    let mut log = current_log(alloc, disk)?;
    append(&mut log, disk, payload)?;
    Ok(log)
}

/// Opens `CURRENT`, or makes it where there is none.
fn current_log<D: Disk>(alloc: Global, disk: &mut D) -> Result<GateLog, CommitError>
    requires { D.told ≡ true → IsSettled (D.contents disk.old) current_name }
    ensures ok { D.told ≡ true → IfOk result (λ log. IsOpenedOrMade current_name
        (payloads_in ((D.contents disk.old).seen current_name)) log (D.contents disk.old) (D.contents disk.new)) }
    ensures opens { D.told ≡ true → OpensOrMakes current_name (D.contents disk.old) (D.contents disk.new) }
    ensures known { IfErr result (λ error. (error ≡ CommitError.Disk) ⊎ (error ≡ CommitError.NoMemory)) }
    ensures cause { HasCauseAs IsCommitFault (D.fault_count disk.old) (D.fault_count disk.new) result }
{
    match open_or_create(alloc, disk, current()) {
        Ok((log, _payloads)) => Ok(log),
        Err(Fault::Disk) => Err(CommitError::Disk),
        Err(_) => Err(CommitError::NoMemory),
    }
}
