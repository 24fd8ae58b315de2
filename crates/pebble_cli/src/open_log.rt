ghost use Rattle.std.specs.Prelude.{◌≡◌, ℕ, ◌<◌, ◌≤◌, ◌^◌, ◌⊎◌, true, Err, IfOk, IfErr};
ghost use Rattle.pb_devices.specs.Contents.{IsSettled};
ghost use Rattle.pb_devices.specs.Counts.{HasCauseAs};
ghost use Rattle.pb_gate_log.specs.Calls.{IsOpenedOrMade, OpensOrMakes};
ghost use Rattle.pebble_cli.specs.Faults.{IsStoreFault};
ghost use Rattle.pebble_cli.specs.Folder.{log_name, Replays, IsRead};
ghost use Rattle.pebble_cli.specs.Settings.{Set, IsSet, payload_of};
ghost use Rattle.pb_keys.specs.Map.{Map};

use crate::pairs::Pairs;
use crate::setting::read_setting;
use crate::store_error::StoreError;
use crate::word::{Word, are_names};
use pb_devices::{Disk, Fault};
use pb_gate_log::{GateLog, open_or_create};
use pb_keys::Bytes;
use pb_names::{FileKind, file};
use std::alloc::Global;

/// Opens the log of a store, or makes it where there is none, and gives its payloads. Nothing of it may be pending.
pub fn open_log<D: Disk>(alloc: Global, disk: &mut D) -> Result<(GateLog, Vec<Bytes>), StoreError>
    requires { D.told ≡ true → IsSettled (D.contents disk.old) log_name }
    ensures ok { D.told ≡ true → IfOk result (λ opened.
        IsOpenedOrMade log_name opened.1.items opened.0 (D.contents disk.old) (D.contents disk.new)) }
    ensures opens { D.told ≡ true → OpensOrMakes log_name (D.contents disk.old) (D.contents disk.new) }
    ensures known { IfErr result (λ refusal. (refusal ≡ StoreError.DiskFault) ⊎ (refusal ≡ StoreError.NoMemory)) }
    ensures cause { HasCauseAs IsStoreFault (D.fault_count disk.old) (D.fault_count disk.new) result }
{
    match open_or_create(alloc, disk, file(FileKind::Log, 3)) {
        Ok(opened) => Ok(opened),
        Err(Fault::Disk) => Err(StoreError::DiskFault),
        Err(_) => Err(StoreError::NoMemory),
    }
}

/// The pairs that the payloads of a log set, in order, and the count of the last: 0 without a payload.
pub fn read_sets(alloc: Global, payloads: &[Bytes]) -> Result<(Pairs, u64), StoreError>
    ensures ok { IfOk result (λ read. Replays payloads.now read.1 read.0) }
    ensures below { IfOk result (λ read. read.1 < 2 ^ 62) }
    ensures damaged { result ≡ Err StoreError.Damaged → (n : ℕ) (m : Map) → Replays payloads.now n m → ⊥ }
    ensures known { IfErr result (λ refusal. (refusal ≡ StoreError.Damaged) ⊎ (refusal ≡ StoreError.NoMemory)) }
{
    let mut pairs = Pairs::new(alloc);
    let mut least = 0;
    for payload in payloads {
        match read_payload(alloc, payload.as_slice(), least, &mut pairs) {
            Ok(count) => least = count + 1,
            Err(refusal) => return Err(refusal),
        }
    }
    Ok((pairs, least.saturating_sub(1)))
}

/// Reads a command and sets its pair. Its count is the answer: at least `least`.
fn read_payload(
    alloc: Global,
    payload: &[u8],
    least: u64,
    pairs: &mut Pairs,
) -> Result<u64, StoreError>
    ensures ok { IfOk result (λ n. IsRead payload.now least n pairs.old pairs.new) }
    ensures below { IfOk result (λ n. n < 2 ^ 62) }
    ensures damaged { result ≡ Err StoreError.Damaged → (set : Set) → IsSet set → payload.now ≡ payload_of set → least ≤ set.count → ⊥ }
    ensures known { IfErr result (λ refusal. (refusal ≡ StoreError.Damaged) ⊎ (refusal ≡ StoreError.NoMemory)) }
{
    let Some(setting) = read_setting(payload) else {
        return Err(StoreError::Damaged);
    };
    if setting.count < least {
        return Err(StoreError::Damaged);
    }
    if !are_names(setting.key, setting.value) {
        return Err(StoreError::Damaged);
    }
    let key = Word::new(alloc, setting.key)?;
    let value = Word::new(alloc, setting.value)?;
    pairs.set(key, value)?;
    Ok(setting.count)
}
