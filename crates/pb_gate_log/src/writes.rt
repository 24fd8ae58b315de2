ghost use Rattle.std.specs.Prelude.{◌≡◌, ℕ, ◌+◌, ◌<◌, ◌≤◌, ◌^◌, true, List, length, Option, OnOk};
ghost use Rattle.pb_devices.specs.Counts.{HasCause};
ghost use Rattle.pb_devices.specs.DiskCalls.{IsOver};
ghost use Rattle.pb_devices.specs.Reads.{IsWithin};
ghost use Rattle.pb_gate_log.specs.Payloads.{max_payload};
ghost use Rattle.pb_gate_log.specs.Steps.{IsWriting, Overwrites, Stages};

use pb_bytes::be32;
use pb_devices::{Disk, Failed};

/// Writes an entry's length, its payload and its own shut gate behind a gate, and syncs them. The gate itself stays shut.
pub(crate) fn write_entry<D: Disk>(
    disk: &mut D,
    file: &str,
    gate: u64,
    payload: &[u8],
) -> Result<(), Failed>
    requires place { D.told ≡ true → IsWithin (gate + 1) ((D.contents disk.old).seen file.now) }
    requires low { gate < 2 ^ 62 }
    requires short { length payload.now ≤ max_payload }
    ensures stages { D.told ≡ true → Stages file.now gate payload.now (D.contents disk.old) (D.contents disk.new) result }
    ensures cause { HasCause (D.fault_count disk.old) (D.fault_count disk.new) result }
{
    let len = payload.len() as u64;
    write_behind(disk, file, gate + 1, &be32(len as u32))?;
    write_behind(disk, file, gate + 5, payload)?;
    write_behind(disk, file, gate + 5 + len, &[0])?;
    disk.sync(file)?;
    Ok(())
}

/// Writes bytes over those of a file, and syncs them.
pub(crate) fn write_synced<D: Disk>(
    disk: &mut D,
    file: &str,
    at: u64,
    bytes: &[u8],
) -> Result<(), Failed>
    requires { D.told ≡ true → IsWithin at ((D.contents disk.old).seen file.now) }
    ensures writes { D.told ≡ true → Overwrites file.now at bytes.now (D.contents disk.old) (D.contents disk.new) result }
    ensures cause { HasCause (D.fault_count disk.old) (D.fault_count disk.new) result }
{
    write_behind(disk, file, at, bytes)?;
    disk.sync(file)?;
    Ok(())
}

// One write; none for no bytes.
fn write_behind<D: Disk>(disk: &mut D, file: &str, at: u64, bytes: &[u8]) -> Result<(), Failed>
    requires { D.told ≡ true → IsWithin at ((D.contents disk.old).seen file.now) }
    ensures ok { D.told ≡ true → OnOk result (IsOver (D.contents disk.old) (D.contents disk.new) file.now at bytes.now) }
    ensures writing { D.told ≡ true → (from to : ℕ) → from ≤ at → at + length bytes.now ≤ to
        → IsWriting from to (D.contents disk.old) (D.contents disk.new) file.now }
    ensures cause { HasCause (D.fault_count disk.old) (D.fault_count disk.new) result }
{
    if bytes.is_empty() {
        return Ok(());
    }
    disk.write_at(file, at, bytes)?;
    Ok(())
}
