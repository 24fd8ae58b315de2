ghost use Rattle.std.specs.Prelude.{◌≡◌, ◌⊎◌, ◌+◌, ◌<◌, ◌≤◌, ◌^◌, ℕ, true, List, length, max, Err, IfErr, OnErr, OnOk};
ghost use Rattle.pb_devices.specs.Counts.{HasCauseAs};
ghost use Rattle.pb_gate_log.specs.Calls.{Appends};
ghost use Rattle.pb_gate_log.specs.EachLog.{EachLog};
ghost use Rattle.pb_manifest.specs.Faults.{IsCommitFault};

use crate::CommitError;
use pb_devices::Disk;
use pb_gate_log::{AppendError, GateLog};

/// Appends a payload to a log. A payload or a file that would be too large is want of memory: no device is called then.
/// Nothing else is.
pub(crate) fn append<D: Disk>(
    log: &mut GateLog,
    disk: &mut D,
    payload: &[u8],
) -> Result<(), CommitError>
    requires { D.told ≡ true → (list : List (List ℕ)) × EachLog log.old list (D.contents disk.old) }
    ensures place { OnOk result (log.new.len ≡ max log.old.len (log.old.gate + 6 + length payload.now)) }
    ensures gate { OnOk result (log.new.gate ≡ log.old.gate + 5 + length payload.now) }
    ensures full { result ≡ Err CommitError.NoMemory
        → (67108864 < length payload.now) ⊎ (2 ^ 62 ≤ log.old.gate + 5 + length payload.now) }
    ensures same { OnErr result (log.new ≡ log.old) }
    ensures appends { D.told ≡ true → Appends log.old log.new payload.now (D.contents disk.old) (D.contents disk.new) result }
    ensures known { IfErr result (λ error. (error ≡ CommitError.Disk) ⊎ ((error ≡ CommitError.NoMemory) × (disk.new ≡ disk.old))) }
    ensures cause { HasCauseAs IsCommitFault (D.fault_count disk.old) (D.fault_count disk.new) result }
{
    match log.append(disk, payload) {
        Ok(()) => Ok(()),
        Err(AppendError::Failed) => Err(CommitError::Disk),
        Err(AppendError::TooLarge) => Err(CommitError::NoMemory),
    }
}
