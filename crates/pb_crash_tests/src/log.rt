ghost use Rattle.std.specs.Prelude.{◌≡◌, ◌≤◌, ℕ, List, [], ◌∷◌, Option, true, IfOk, OnOk, length};
ghost use Rattle.pb_crash_tests.specs.Driven.{HasFirst, NeverStood};
ghost use Rattle.pb_devices.specs.Contents.{MayLeave};
ghost use Rattle.pb_devices.specs.Counts.{HasCauseAs};
ghost use Rattle.pb_devices.specs.Faults.{IsDiskFault};
ghost use Rattle.pb_gate_log.specs.EachLog.{EachHas, EachLog};
ghost use Rattle.pb_gate_log.specs.Payloads.{payloads_in};

use pb_devices::{Disk, Failed, Fault};
use pb_gate_log::{AppendError, GateLog, open_or_create};
use pb_keys::Bytes;
use pb_names::Name;
use std::alloc::Global;

/// Makes a log, and appends one payload. After `Ok` each image of the file has the one payload.
pub fn one_append<D: Disk>(disk: &mut D, name: Name, payload: &[u8]) -> Result<(), AppendError>
    requires { D.told ≡ true → NeverStood (D.contents disk.old) name }
    ensures { D.told ≡ true → OnOk result (EachHas (payload.now ∷ []) (D.contents disk.new) name) }
{
    let mut log = GateLog::create(disk, name)?;
    log.append(disk, payload)?;
    Ok(())
}

/// Makes a log and appends these payloads, up to the first call that fails. The answer is how many were acknowledged.
pub fn appended<D: Disk>(disk: &mut D, name: Name, payloads: &[Bytes]) -> usize
    requires { D.told ≡ true → NeverStood (D.contents disk.old) name }
    ensures few { result ≤ length payloads.now }
    ensures left { D.told ≡ true → (image : Option (List ℕ)) → MayLeave (D.contents disk.new) name image → HasFirst payloads.now result image }
{
    let Ok(mut log) = GateLog::create(disk, name) else {
        return 0;
    };
    let mut done = 0;
    for payload in payloads {
        let Ok(()) = log.append(disk, payload.as_slice()) else {
            return done;
        };
        done += 1;
    }
    done
}

/// Makes a log, appends these payloads, and gives the length that the log tells.
pub fn len_after<D: Disk>(disk: &mut D, name: Name, payloads: &[Bytes]) -> Result<u64, AppendError>
    requires { D.told ≡ true → NeverStood (D.contents disk.old) name }
{
    let mut log = GateLog::create(disk, name)?;
    for payload in payloads {
        log.append(disk, payload.as_slice())?;
    }
    Ok(log.len())
}

/// Makes a file of these bytes: three device calls.
pub fn damaged<D: Disk>(disk: &mut D, name: Name, bytes: &[u8]) -> Result<(), Failed>
    requires { D.told ≡ true → NeverStood (D.contents disk.old) name }
{
    let file = name.as_str();
    disk.create(file)?;
    disk.write_at(file, 0, bytes)?;
    disk.barrier()?;
    Ok(())
}

/// Opens the log of a file after a barrier, or makes it where it isn't there. It finds the payloads that reads give.
pub fn reopened<D: Disk>(
    alloc: Global,
    disk: &mut D,
    name: Name,
) -> Result<(GateLog, Vec<Bytes>), Fault>
    ensures ok { D.told ≡ true → IfOk result (λ found. EachLog found.0 found.1.items (D.contents disk.new)) }
    ensures found { D.told ≡ true → IfOk result (λ found. found.1.items ≡ payloads_in ((D.contents disk.old).seen name)) }
    ensures cause { HasCauseAs IsDiskFault (D.fault_count disk.old) (D.fault_count disk.new) result }
{
    let Ok(()) = disk.barrier() else {
        return Err(Fault::Disk);
    };
    open_or_create(alloc, disk, name)
}
