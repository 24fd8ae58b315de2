ghost use Rattle.std.specs.Prelude.{◌≡◌, ◌≢◌, ◌^◌, ◌<◌, true, Err, IfOk};
ghost use Rattle.pb_devices.specs.Contents.{IsSettled};
ghost use Rattle.pb_devices.specs.Counts.{HasCauseAs};
ghost use Rattle.pb_devices.specs.Faults.{IsDiskFault};
ghost use Rattle.pb_gate_log.specs.Calls.{IsOpenedOrMade, OpensOrMakes};

use crate::GateLog;
use pb_devices::{Disk, Fault};
use pb_keys::Bytes;
use pb_names::Name;
use std::alloc::Global;

/// Opens the log of a file of which nothing is pending, or makes it where there is none, and gives its payloads in order:
/// one device call more than either. Whether it succeeds or fails, each image has the payloads that reads gave.
pub fn open_or_create<D: Disk>(
    alloc: Global,
    disk: &mut D,
    file: Name,
) -> Result<(GateLog, Vec<Bytes>), Fault>
    requires { D.told ≡ true → IsSettled (D.contents disk.old) file }
    ensures name { IfOk result (λ opened. opened.0.file ≡ file) }
    ensures place { IfOk result (λ opened. opened.0.gate < 2 ^ 62) }
    ensures ok { D.told ≡ true → IfOk result (λ opened.
        IsOpenedOrMade file opened.1.items opened.0 (D.contents disk.old) (D.contents disk.new)) }
    ensures opens { D.told ≡ true → OpensOrMakes file (D.contents disk.old) (D.contents disk.new) }
    ensures cause { HasCauseAs IsDiskFault (D.fault_count disk.old) (D.fault_count disk.new) result }
    ensures bucket { result ≢ Err Fault.Bucket }
{
    let Ok(found) = disk.len(file.as_str()) else {
        return Err(Fault::Disk);
    };
    if found.is_some() {
        return GateLog::open(alloc, disk, file);
    }
    let Ok(log) = GateLog::create(disk, file) else {
        return Err(Fault::Disk);
    };
    Ok((log, Vec::new(alloc)))
}
