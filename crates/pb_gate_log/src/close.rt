ghost use Rattle.std.specs.Prelude.{◌≡◌, ℕ, ◌^◌, ◌<◌, ◌≤◌, ◌⊎◌, true, List, length, IfOk, OnOk, Option};
ghost use Rattle.pb_devices.specs.Counts.{HasCause};
ghost use Rattle.pb_devices.specs.Contents.{MayLeave, KeepsOthers};
ghost use Rattle.pb_devices.specs.Reads.{IsWithin};
ghost use Rattle.pb_gate_log.specs.Payloads.{HasList};
ghost use Rattle.pb_gate_log.specs.Steps.{EndsAt, IsDurable, IsReadyToShut, IsShut};

use crate::writes::write_synced;
use pb_devices::{Disk, Failed};

/// A length above the limit.
const BAR: [u8; 4] = [0xFF; 4];

/// Shuts the last gate of a file that has these bytes, so that nothing behind it counts and nothing before it is lost. Gives
/// the file's length.
pub(crate) fn close<D: Disk>(
    disk: &mut D,
    file: &str,
    bytes: &[u8],
    gate: u64,
) -> Result<u64, Failed>
    requires durable { D.told ≡ true → IsDurable bytes.now (D.contents disk.old) file.now }
    requires within { gate ≤ length bytes.now }
    requires low { gate < 2 ^ 62 }
    ensures ok { D.told ≡ true → (list : List (List ℕ)) → EndsAt gate list bytes.now
        → IfOk result (λ len. IsShut gate list len (D.contents disk.new) file.now) }
    ensures crash { D.told ≡ true → (list : List (List ℕ)) (image : Option (List ℕ)) → EndsAt gate list bytes.now
        → MayLeave (D.contents disk.new) file.now image → (D.contents disk.old).earlier file.now image ⊎ HasList list image }
    ensures earlier { D.told ≡ true → (image : Option (List ℕ)) → (D.contents disk.new).earlier file.now image
        → (D.contents disk.old).earlier file.now image }
    ensures others { D.told ≡ true → KeepsOthers (D.contents disk.old) (D.contents disk.new) file.now }
    ensures cause { HasCause (D.fault_count disk.old) (D.fault_count disk.new) result }
{
    let at = gate as usize;
    if at < bytes.len() && bytes[at] == 0 {
        return Ok(bytes.len() as u64);
    }
    let len = bar(disk, file, bytes, gate)?;
    write_synced(disk, file, gate, &[0])?;
    Ok(len.max(gate + 1))
}

// A torn write may leave any byte at the last gate, 1 as well. Where another byte stands there, an old entry may stand
// behind it, so a length above the limit is put there first. A byte 1 that begins no entry needs no bar: what stands
// behind it was judged behind a 1 already. Gives the file's length.
fn bar<D: Disk>(disk: &mut D, file: &str, bytes: &[u8], gate: u64) -> Result<u64, Failed>
    requires durable { D.told ≡ true → IsDurable bytes.now (D.contents disk.old) file.now }
    requires within { gate ≤ length bytes.now }
    requires low { gate < 2 ^ 62 }
    ensures place { D.told ≡ true → OnOk result (IsWithin gate ((D.contents disk.new).seen file.now)) }
    ensures ok { D.told ≡ true → (list : List (List ℕ)) → EndsAt gate list bytes.now
        → IfOk result (λ len. IsReadyToShut gate list len (D.contents disk.new) file.now) }
    ensures crash { D.told ≡ true → (list : List (List ℕ)) (image : Option (List ℕ)) → EndsAt gate list bytes.now
        → MayLeave (D.contents disk.new) file.now image → (D.contents disk.old).earlier file.now image ⊎ HasList list image }
    ensures earlier { D.told ≡ true → (image : Option (List ℕ)) → (D.contents disk.new).earlier file.now image
        → (D.contents disk.old).earlier file.now image }
    ensures others { D.told ≡ true → KeepsOthers (D.contents disk.old) (D.contents disk.new) file.now }
    ensures cause { HasCause (D.fault_count disk.old) (D.fault_count disk.new) result }
{
    let at = gate as usize;
    let len = bytes.len() as u64;
    if at == bytes.len() || bytes[at] == 1 {
        return Ok(len);
    }
    write_synced(disk, file, gate + 1, &BAR)?;
    Ok(len.max(gate + 5))
}
