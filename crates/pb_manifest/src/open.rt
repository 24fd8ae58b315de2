ghost use Rattle.std.specs.Prelude.{◌≡◌, ◌≢◌, ◌⊎◌, ◌<◌, ◌^◌, [], true, false, ℕ, List, None, Err, IsSome, IfErr, IfNone, IfOk, IfSome, OnOk};
ghost use Rattle.pb_devices.specs.Contents.{IsSettled};
ghost use Rattle.pb_devices.specs.Counts.{HasCause, HasCauseAs};
ghost use Rattle.pb_devices.specs.DiskCalls.{Stays};
ghost use Rattle.pb_gate_log.specs.Calls.{IsOpened, Opens};
ghost use Rattle.pb_gate_log.specs.NewFolder.{IsNew};
ghost use Rattle.pb_gate_log.specs.Payloads.{payloads_in};
ghost use Rattle.pb_manifest.specs.Faults.{IsManifestFault};
ghost use Rattle.pb_manifest.specs.Found.{AreThere, IsDamaged, IsLacking, Says};
ghost use Rattle.pb_manifest.specs.Manifest.{catalogue_name, first_len, manifest_name};
ghost use Rattle.pb_manifest.specs.Numbers.{IsFolded};
ghost use Rattle.pb_manifest.specs.Steps.{IsFound, IsLost, IsUnread, OpensIfThere};
ghost use Rattle.pb_names.specs.Spelling.{current_name};
ghost use Rattle.pb_payloads.specs.Current.{SaysCurrent, pointer_to};

use crate::ManifestError;
use pb_devices::{Disk, Failed, Fault};
use pb_gate_log::GateLog;
use pb_keys::Bytes;
use pb_names::{FileKind, Name, current, file};
use pb_payloads::last_pointer;
use pb_version::Version;
use std::alloc::Global;

/// Opens the log of `CURRENT`, and gives it with the numbers of the manifest and of the catalogue that its last payload names.
/// None exactly where it is absent or has no payload.
pub(crate) fn find<D: Disk>(
    alloc: Global,
    disk: &mut D,
) -> Result<Option<(GateLog, u64, u64)>, ManifestError>
    requires { D.told ≡ true → IsSettled (D.contents disk.old) current_name }
    ensures none { D.told ≡ true → IfOk result (λ found. IfNone found (IsNew (D.contents disk.old).seen)) }
    ensures low { IfOk result (λ found. IfSome found (λ named. (named.1 < 2 ^ 62) × (named.2 < 2 ^ 62))) }
    ensures found { D.told ≡ true → IfOk result (λ found. IfSome found (λ named.
        IsFound named.0 named.1 named.2 (D.contents disk.old) (D.contents disk.new))) }
    ensures damaged { D.told ≡ true → (file : List ℕ) → result ≡ Err (ManifestError.Damaged file)
        → IsDamaged (D.contents disk.old).seen file }
    ensures settled { D.told ≡ true → OnOk result (IsSettled (D.contents disk.new) current_name) }
    ensures opens { D.told ≡ true → OpensIfThere current_name (D.contents disk.old) (D.contents disk.new) }
    ensures cause { HasCauseAs IsManifestFault (D.fault_count disk.old) (D.fault_count disk.new) result }
{
    let Some((current, pointers)) = open_current(alloc, disk)? else {
        return Ok(None);
    };
    if pointers.is_empty() {
        return Ok(None);
    }
    let (manifest, catalogue) = named(disk, &pointers)?;
    Ok(Some((current, manifest, catalogue)))
}

/// Opens the log of a manifest, and gives the length of its first payload and the version that its edits fold to.
pub(crate) fn read_version<D: Disk>(
    alloc: Global,
    disk: &mut D,
    number: u64,
) -> Result<(GateLog, u64, Version), ManifestError>
    requires there { D.told ≡ true → IsSome ((D.contents disk.old).seen (manifest_name number)) }
    requires settled { D.told ≡ true → IsSettled (D.contents disk.old) (manifest_name number) }
    ensures ok { D.told ≡ true → IfOk result (λ read. IsOpened (manifest_name number)
        (payloads_in ((D.contents disk.old).seen (manifest_name number))) read.0 (D.contents disk.old) (D.contents disk.new)) }
    ensures first { D.told ≡ true → IfOk result (λ read. read.1 ≡ first_len (payloads_in ((D.contents disk.old).seen (manifest_name number)))) }
    ensures says { D.told ≡ true → IfOk result (λ read. Says number read.2 (D.contents disk.old).seen) }
    ensures folded { IfOk result (λ read. IsFolded read.2) }
    ensures own { IfOk result (λ read. number < read.2.five.next) }
    ensures damaged { D.told ≡ true → (file : List ℕ) → result ≡ Err (ManifestError.Damaged file)
        → IsUnread number (D.contents disk.old).seen file }
    ensures opens { D.told ≡ true → Opens (manifest_name number) (D.contents disk.old) (D.contents disk.new) }
    ensures cause { HasCauseAs IsManifestFault (D.fault_count disk.old) (D.fault_count disk.new) result }
{
    let name = file(FileKind::Manifest, number);
    let (log, payloads) = opened(alloc, disk, name)?;
    let Some(version) = Version::of_payloads(alloc, &payloads)? else {
        return Err(ManifestError::Damaged(name));
    };
    if number >= version.five().next {
        return Err(ManifestError::Damaged(current()));
    }
    Ok((log, first_len(&payloads), version))
}

/// The length of the first payload.
fn first_len(payloads: &[Bytes]) -> u64
    ensures { result ≡ first_len payloads.now }
{
    match payloads {
        [] => 0,
        [first, ..] => first.as_slice().len() as u64,
    }
}

/// Opens the log of `CURRENT`, and gives its payloads. None exactly where it is absent.
fn open_current<D: Disk>(
    alloc: Global,
    disk: &mut D,
) -> Result<Option<(GateLog, Vec<Bytes>)>, ManifestError>
    requires { D.told ≡ true → IsSettled (D.contents disk.old) current_name }
    ensures absent { D.told ≡ true → IfOk result (λ found. IfNone found ((D.contents disk.old).seen current_name ≡ None)) }
    ensures ok { D.told ≡ true → IfOk result (λ found. IfSome found (λ opened.
        IsOpened current_name opened.1.items opened.0 (D.contents disk.old) (D.contents disk.new))) }
    ensures settled { D.told ≡ true → OnOk result (IsSettled (D.contents disk.new) current_name) }
    ensures opens { D.told ≡ true → OpensIfThere current_name (D.contents disk.old) (D.contents disk.new) }
    ensures known { IfErr result (λ error. (error ≡ ManifestError.Disk) ⊎ (error ≡ ManifestError.NoMemory)) }
    ensures cause { HasCauseAs IsManifestFault (D.fault_count disk.old) (D.fault_count disk.new) result }
{
    let name = current();
    if !is_there(disk, name)? {
        return Ok(None);
    }
    let (log, payloads) = opened(alloc, disk, name)?;
    Ok(Some((log, payloads)))
}

/// The numbers of the manifest and of the catalogue that the last payload of `CURRENT` names.
fn named<D: Disk>(disk: &mut D, payloads: &[Bytes]) -> Result<(u64, u64), ManifestError>
    requires { payloads.now ≡ [] → ⊥ }
    ensures names { IfOk result (λ found. SaysCurrent payloads.now (pointer_to found.0 found.1)) }
    ensures there { D.told ≡ true → IfOk result (λ found. AreThere found.0 found.1 (D.contents disk.old).seen) }
    ensures damaged { D.told ≡ true → (file : List ℕ) → result ≡ Err (ManifestError.Damaged file)
        → (file ≡ current_name) × IsLost payloads.now (D.contents disk.old).seen }
    ensures stays { D.told ≡ true → Stays (D.contents disk.old) (D.contents disk.new) }
    ensures cause { HasCauseAs IsManifestFault (D.fault_count disk.old) (D.fault_count disk.new) result }
{
    let Some((manifest, catalogue)) = last_pointer(payloads) else {
        return Err(ManifestError::Damaged(current()));
    };
    if !are_there(disk, manifest, catalogue)? {
        return Err(ManifestError::Damaged(current()));
    }
    Ok((manifest, catalogue))
}

/// Whether both files are there that `CURRENT` names. Both are asked for, whatever the first answer is.
fn are_there<D: Disk>(disk: &mut D, manifest: u64, catalogue: u64) -> Result<bool, Failed>
    ensures yes { D.told ≡ true → IfOk result (λ there. there ≡ true → AreThere manifest catalogue (D.contents disk.old).seen) }
    ensures no { D.told ≡ true → IfOk result (λ there. there ≡ false → IsLacking manifest catalogue (D.contents disk.old).seen) }
    ensures stays { D.told ≡ true → Stays (D.contents disk.old) (D.contents disk.new) }
    ensures cause { HasCause (D.fault_count disk.old) (D.fault_count disk.new) result }
{
    let manifest = is_there(disk, file(FileKind::Manifest, manifest))?;
    let catalogue = is_there(disk, file(FileKind::Catalogue, catalogue))?;
    Ok(manifest && catalogue)
}

fn is_there<D: Disk>(disk: &mut D, name: Name) -> Result<bool, Failed>
    ensures yes { D.told ≡ true → IfOk result (λ there. there ≡ true → IsSome ((D.contents disk.old).seen name)) }
    ensures no { D.told ≡ true → IfOk result (λ there. there ≡ false → (D.contents disk.old).seen name ≡ None) }
    ensures stays { D.told ≡ true → Stays (D.contents disk.old) (D.contents disk.new) }
    ensures cause { HasCause (D.fault_count disk.old) (D.fault_count disk.new) result }
{
    let found = disk.len(name.as_str())?;
    Ok(found.is_some())
}

/// Opens a log that is there, and gives its payloads.
fn opened<D: Disk>(
    alloc: Global,
    disk: &mut D,
    name: Name,
) -> Result<(GateLog, Vec<Bytes>), ManifestError>
    requires there { D.told ≡ true → IsSome ((D.contents disk.old).seen name) }
    requires settled { D.told ≡ true → IsSettled (D.contents disk.old) name }
    ensures ok { D.told ≡ true → IfOk result (λ opened.
        IsOpened name opened.1.items opened.0 (D.contents disk.old) (D.contents disk.new)) }
    ensures opens { D.told ≡ true → Opens name (D.contents disk.old) (D.contents disk.new) }
    ensures known { IfErr result (λ error. (error ≡ ManifestError.Disk) ⊎ (error ≡ ManifestError.NoMemory)) }
    ensures cause { HasCauseAs IsManifestFault (D.fault_count disk.old) (D.fault_count disk.new) result }
{
    match GateLog::open(alloc, disk, name) {
        Ok((log, payloads)) => Ok((log, payloads)),
        Err(Fault::Disk) => Err(ManifestError::Disk),
        Err(_) => Err(ManifestError::NoMemory),
    }
}
