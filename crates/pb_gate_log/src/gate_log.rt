ghost use Rattle.std.specs.Prelude.{◌≡◌, ◌≢◌, ◌↔◌, ◌⊎◌, ℕ, ◌+◌, ◌^◌, ◌<◌, ◌≤◌, [], true, List, length, max, None, Err, IsSome, IfOk, OnOk, OnErr};
ghost use Rattle.pb_devices.specs.Contents.{IsSettled};
ghost use Rattle.pb_devices.specs.Counts.{HasCause, HasCauseAs};
ghost use Rattle.pb_devices.specs.DiskCalls.{Stays};
ghost use Rattle.pb_devices.specs.Faults.{IsDiskFault};
ghost use Rattle.pb_gate_log.specs.Calls.{Appends, IsOpened, Makes, Opens};
ghost use Rattle.pb_gate_log.specs.EachLog.{EachLog};
ghost use Rattle.pb_gate_log.specs.Faults.{IsAppendFault};

use crate::close::close;
use crate::decode::decode;
use crate::reads::read_whole;
use crate::writes::{write_entry, write_synced};
use pb_devices::{Disk, Failed, Fault};
use pb_keys::Bytes;
use pb_names::Name;
use std::alloc::Global;
use std::marker::Model;

/// The longest payload, in bytes.
pub const MAX_PAYLOAD: usize = 67_108_864;

/// Last gates stand below this place.
const PLACES: u64 = 1 << 62;

/// A list of payloads in one file of a disk, open to append to.
///
/// Between two calls every image that a power cut may leave of the file has exactly the list. The bytes stand in
/// docs/FORMATS.md, "Gate log", and what they mean in docs/MODEL.md, "Gate log". Contracts see the file's name, the
/// place of the last gate and the file's length.
#[derive(Debug, Drop)]
pub struct GateLog {
    file: Name,
    gate: u64,
    len: u64,
}

/// Why nothing was appended, or perhaps nothing.
#[derive(Clone, Copy, Debug, PartialEq, Eq, thiserror::Error)]
pub enum AppendError {
    #[error("the disk failed")]
    Failed,
    #[error("the payload has more than 64 MiB, or the file would reach 2^62 bytes")]
    TooLarge,
}

impl From<Failed> for AppendError {
    ghost use Rattle.std.specs.Prelude.{◌≡◌};
    ghost use Rattle.pb_gate_log.specs.declared.gate_log.AppendError.TheVariants.{Failed};

    ghost from_gives = { λ _ error. error ≡ Failed };

    fn from(_failed: Failed) -> AppendError {
        AppendError::Failed
    }
}

impl Model for GateLog {
    ghost use Rattle.std.specs.Prelude.{◌<◌, ◌^◌};
    ghost use Rattle.pb_gate_log.specs.EachLog.{LogPlace};

    ghost Value = { LogPlace };

    ghost view = { λ log. record { file = log.file; gate = log.gate; len = log.len } };

    ghost invariant = { λ log. log.gate < 2 ^ 62 };
}

impl GateLog {
    /// Makes a log with no payload: four device calls. After `Failed` the file is not there, or it has no payload.
    pub fn create<D: Disk>(disk: &mut D, file: Name) -> Result<GateLog, Failed>
        requires { D.told ≡ true → (D.contents disk.old).seen file ≡ None }
        ensures place { IfOk result (λ log. log ≡ record { file = file; gate = 0; len = 1 }) }
        ensures ok { D.told ≡ true → IfOk result (λ log. EachLog log [] (D.contents disk.new)) }
        ensures makes { D.told ≡ true → Makes file (D.contents disk.old) (D.contents disk.new) }
        ensures cause { HasCause (D.fault_count disk.old) (D.fault_count disk.new) result }
    {
        let name = file.as_str();
        disk.create(name)?;
        write_synced(disk, name, 0, &[0])?;
        disk.barrier()?;
        Ok(GateLog {
            file,
            gate: 0,
            len: 1,
        })
    }

    /// Opens the log of a file with any bytes, of which nothing is pending, and gives its payloads in order. It shuts the
    /// last gate where that stands open or torn; the list stays the same whether it succeeds or fails.
    pub fn open<D: Disk>(
        alloc: Global,
        disk: &mut D,
        file: Name,
    ) -> Result<(GateLog, Vec<Bytes>), Fault>
        requires there { D.told ≡ true → IsSome ((D.contents disk.old).seen file) }
        requires settled { D.told ≡ true → IsSettled (D.contents disk.old) file }
        ensures name { IfOk result (λ opened. opened.0.file ≡ file) }
        ensures place { IfOk result (λ opened. opened.0.gate < 2 ^ 62) }
        ensures ok { D.told ≡ true → IfOk result (λ opened.
            IsOpened file opened.1.items opened.0 (D.contents disk.old) (D.contents disk.new)) }
        ensures opens { D.told ≡ true → Opens file (D.contents disk.old) (D.contents disk.new) }

        // No gate is shut before memory is wanted.
        ensures stays { D.told ≡ true → result ≡ Err Fault.NoMemory → Stays (D.contents disk.old) (D.contents disk.new) }
        ensures cause { HasCauseAs IsDiskFault (D.fault_count disk.old) (D.fault_count disk.new) result }
        ensures bucket { result ≢ Err Fault.Bucket }
    {
        let name = file.as_str();
        let bytes = read_whole(alloc, disk, name)?;
        let Ok((payloads, gate)) = decode(alloc, &bytes) else {
            return Err(Fault::NoMemory);
        };
        let gate = gate as u64;
        if gate >= PLACES {
            return Err(Fault::NoMemory);
        }
        let Ok(len) = close(disk, name, &bytes, gate) else {
            return Err(Fault::Disk);
        };
        Ok((GateLog { file, gate, len }, payloads))
    }

    /// Appends a payload: six device calls, five for an empty one. After `Failed` the list has it or not, and the log is
    /// to be opened again. `TooLarge` makes no device call. It takes no memory.
    pub fn append<D: Disk>(&mut self, disk: &mut D, payload: &[u8]) -> Result<(), AppendError>
        requires { D.told ≡ true → (list : List (List ℕ)) × EachLog self.old list (D.contents disk.old) }
        ensures place { OnOk result (self.new ≡ record self.old {
          gate = self.old.gate + 5 + length payload.now;
          len = max self.old.len (self.old.gate + 6 + length payload.now);
        }) }
        ensures same { OnErr result (self.new ≡ self.old) }
        ensures appends { D.told ≡ true → Appends self.old self.new payload.now (D.contents disk.old) (D.contents disk.new) result }
        ensures cause { HasCauseAs IsAppendFault (D.fault_count disk.old) (D.fault_count disk.new) result }
        ensures too_large { (result ≡ Err AppendError.TooLarge)
            ↔ ((MAX_PAYLOAD < length payload.now) ⊎ (2 ^ 62 ≤ self.old.gate + 5 + length payload.now)) }
        ensures untouched { result ≡ Err AppendError.TooLarge → disk.new ≡ disk.old }
    {
        let len = payload.len();
        if len > MAX_PAYLOAD || self.gate + 5 + len as u64 >= PLACES {
            return Err(AppendError::TooLarge);
        }
        let name = self.file.as_str();
        // The next gate stands shut on the disk before this one is opened: behind an open gate, old bytes would count.
        write_entry(disk, name, self.gate, payload)?;
        write_synced(disk, name, self.gate, &[1])?;
        let end = self.gate + 6 + len as u64;
        self.gate += 5 + len as u64;
        self.len = self.len.max(end);
        Ok(())
    }

    /// The length of the log's file, in bytes. It takes no device call.
    pub fn len(&self) -> u64
        ensures { result ≡ self.now.len }
    {
        self.len
    }
}
