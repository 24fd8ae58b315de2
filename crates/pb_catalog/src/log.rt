//! The calls of the gate log that has the payloads.
ghost use Rattle.std.specs.Prelude.{◌≡◌, ◌⊎◌, ◌≤◌, ℕ, [], true, List, length, None, IfErr, IfOk, IsSome, OnErr};
ghost use Rattle.pb_catalog.specs.Faults.{IsCatalogFault};
ghost use Rattle.pb_devices.specs.Contents.{IsSettled};
ghost use Rattle.pb_devices.specs.Counts.{HasCauseAs};
ghost use Rattle.pb_devices.specs.Faults.{IsDiskFault};
ghost use Rattle.pb_gate_log.specs.Calls.{Appends, IsOpened, Makes, Opens};
ghost use Rattle.pb_gate_log.specs.EachLog.{EachLog};
ghost use Rattle.pb_payloads.specs.Catalogued.{catalogued_spelling};
ghost use Rattle.pb_payloads.specs.Catalogued.Catalogued.{Entered};
ghost use Rattle.pb_payloads.specs.Payloads.{catalogued_of, standing_of};

use crate::CatalogError;
use pb_devices::{Disk, Fault};
use pb_gate_log::{AppendError, GateLog};
use pb_keys::Bytes;
use pb_names::Name;
use pb_payloads::{CataloguePayload, Entry, put_catalogued};
use std::alloc::Global;

/// The bytes of a payload.
pub(crate) fn spelled(alloc: Global, payload: &CataloguePayload) -> Result<Vec<u8>, Fault>
    ensures ok { IfOk result (λ bytes. bytes.items ≡ catalogued_spelling (catalogued_of payload.now)) }
    ensures known { IfErr result (λ error. error ≡ Fault.NoMemory) }
{
    let mut bytes = Vec::new(alloc);
    match put_catalogued(alloc, &mut bytes, payload) {
        Ok(()) => Ok(bytes),
        Err(_) => Err(Fault::NoMemory),
    }
}

/// The bytes of a payload that enters an object.
pub(crate) fn spelled_entry(alloc: Global, number: u64, entry: &Entry) -> Result<Vec<u8>, Fault>
    ensures ok { IfOk result (λ bytes. bytes.items ≡ catalogued_spelling (Entered number (standing_of entry.now))) }
    ensures known { IfErr result (λ error. error ≡ Fault.NoMemory) }
{
    let payload = CataloguePayload::Entered {
        number,
        entry: *entry,
    };
    spelled(alloc, &payload)
}

/// Makes a log with no payload.
pub(crate) fn made<D: Disk>(disk: &mut D, file: Name) -> Result<GateLog, Fault>
    requires { D.told ≡ true → (D.contents disk.old).seen file ≡ None }
    ensures place { IfOk result (λ log. log ≡ record { file = file; gate = 0; len = 1 }) }
    ensures ok { D.told ≡ true → IfOk result (λ log. EachLog log [] (D.contents disk.new)) }
    ensures makes { D.told ≡ true → Makes file (D.contents disk.old) (D.contents disk.new) }
    ensures known { IfErr result (λ error. error ≡ Fault.Disk) }
    ensures cause { HasCauseAs IsDiskFault (D.fault_count disk.old) (D.fault_count disk.new) result }
{
    match GateLog::create(disk, file) {
        Ok(log) => Ok(log),
        Err(_) => Err(Fault::Disk),
    }
}

/// Opens the log of a file, and gives its payloads.
pub(crate) fn opened<D: Disk>(
    alloc: Global,
    disk: &mut D,
    file: Name,
) -> Result<(GateLog, Vec<Bytes>), CatalogError>
    requires there { D.told ≡ true → IsSome ((D.contents disk.old).seen file) }
    requires settled { D.told ≡ true → IsSettled (D.contents disk.old) file }
    ensures name { IfOk result (λ opened. opened.0.file ≡ file) }
    ensures ok { D.told ≡ true → IfOk result (λ opened.
        IsOpened file opened.1.items opened.0 (D.contents disk.old) (D.contents disk.new)) }
    ensures opens { D.told ≡ true → Opens file (D.contents disk.old) (D.contents disk.new) }
    ensures known { IfErr result (λ error. (error ≡ CatalogError.Disk) ⊎ (error ≡ CatalogError.NoMemory)) }
    ensures cause { HasCauseAs IsCatalogFault (D.fault_count disk.old) (D.fault_count disk.new) result }
{
    match GateLog::open(alloc, disk, file) {
        Ok((log, payloads)) => Ok((log, payloads)),
        Err(Fault::Disk) => Err(CatalogError::Disk),
        Err(_) => Err(CatalogError::NoMemory),
    }
}

/// Appends the first payload of a log, which is short.
pub(crate) fn append_first<D: Disk>(
    log: &mut GateLog,
    disk: &mut D,
    payload: &[u8],
) -> Result<(), Fault>
    requires each { D.told ≡ true → (list : List (List ℕ)) × EachLog log.old list (D.contents disk.old) }
    requires first { log.old.gate ≡ 0 }
    requires short { length payload.now ≤ 11 }
    ensures appends { D.told ≡ true → Appends log.old log.new payload.now (D.contents disk.old) (D.contents disk.new) result }
    ensures file { log.new.file ≡ log.old.file }
    ensures known { IfErr result (λ error. error ≡ Fault.Disk) }
    ensures cause { HasCauseAs IsDiskFault (D.fault_count disk.old) (D.fault_count disk.new) result }
{
    match log.append(disk, payload) {
        Ok(()) => Ok(()),
        Err(AppendError::Failed) => Err(Fault::Disk),
        Err(AppendError::TooLarge) => unreachable!(),
    }
}

/// Appends a payload. One that is too large for the log, or that its file has no room for, is want of memory: no device is
/// called then.
pub(crate) fn append<D: Disk>(log: &mut GateLog, disk: &mut D, payload: &[u8]) -> Result<(), Fault>
    requires { D.told ≡ true → (list : List (List ℕ)) × EachLog log.old list (D.contents disk.old) }
    ensures same { OnErr result (log.new ≡ log.old) }
    ensures file { log.new.file ≡ log.old.file }
    ensures appends { D.told ≡ true → Appends log.old log.new payload.now (D.contents disk.old) (D.contents disk.new) result }
    ensures known { IfErr result (λ error. (error ≡ Fault.Disk) ⊎ ((error ≡ Fault.NoMemory) × (disk.new ≡ disk.old))) }
    ensures cause { HasCauseAs IsDiskFault (D.fault_count disk.old) (D.fault_count disk.new) result }
{
    match log.append(disk, payload) {
        Ok(()) => Ok(()),
        Err(AppendError::Failed) => Err(Fault::Disk),
        Err(AppendError::TooLarge) => Err(Fault::NoMemory),
    }
}
