ghost use Rattle.std.specs.Prelude.{◌≡◌, ◌↔◌, ℕ, ◌+◌, ◌<◌, ◌≤◌, ◌^◌, ◌⊎◌, true, List, Option, Err, IfOk, IfErr, OnOk, OnErr, option_copied};
ghost use Rattle.std.specs.FinMap.{get, insert};
ghost use Rattle.pb_devices.specs.BeforeOrAfter.{IsBeforeOrAfter};
ghost use Rattle.pb_devices.specs.Contents.{MayLeave};
ghost use Rattle.pb_devices.specs.Counts.{HasCauseAs};
ghost use Rattle.pb_gate_log.specs.Payloads.{payloads_in};
ghost use Rattle.pebble_cli.specs.Faults.{IsStoreFault};
ghost use Rattle.pebble_cli.specs.Folder.{log_name, HasFrom, KeepsLog, LeavesHeld, Replays};
ghost use Rattle.pebble_cli.specs.Store.{with_pair};
ghost use Rattle.pb_keys.specs.Map.{Map};

use crate::open_log::{open_log, read_sets};
use crate::pairs::Pairs;
use crate::setting::{COUNTS, Setting, spell_setting};
use crate::store_error::StoreError;
use crate::word::Word;
use pb_devices::Disk;
use pb_gate_log::GateLog;
use std::alloc::Global;
use std::marker::Model;

/// An open store: its log, and what that stands for, held in memory. docs/MODEL.md, "Folder".
#[derive(Drop)]
pub struct Opened {
    log: GateLog,
    pairs: Pairs,
    count: u64,
}

impl Model for Opened {
    ghost use Rattle.std.specs.Prelude.{◌<◌, ◌^◌};
    ghost use Rattle.pebble_cli.specs.Store.{Held, held_code};

    ghost Value = { Held };

    ghost coded = { held_code };

    ghost view = { λ s. record { log = s.log; count = s.count; map = s.pairs } };

    ghost invariant = { λ s. s.count < 2 ^ 62 };
}

impl Opened {
    /// Opens the store of a folder: it finds what reads give after a barrier. After an error each image of the log still has
    /// the payloads of one that there was.
    pub fn open<D: Disk>(alloc: Global, disk: &mut D) -> Result<Opened, StoreError>
        ensures kept { D.told ≡ true → IfOk result (λ opened. KeepsLog opened (D.contents disk.new)) }
        ensures found { D.told ≡ true → IfOk result (λ opened. Replays (payloads_in ((D.contents disk.old).seen log_name)) opened.count opened.map) }
        ensures damaged { D.told ≡ true → result ≡ Err StoreError.Damaged
            → (n : ℕ) (m : Map) → Replays (payloads_in ((D.contents disk.old).seen log_name)) n m → ⊥ }
        ensures crash { D.told ≡ true → (image : Option (List ℕ)) → MayLeave (D.contents disk.new) log_name image
            → HasFrom (D.contents disk.old) image }
        ensures known { IfErr result (λ refusal. (refusal ≡ StoreError.Damaged) ⊎ (refusal ≡ StoreError.DiskFault) ⊎ (refusal ≡ StoreError.NoMemory)) }
        ensures cause { HasCauseAs IsStoreFault (D.fault_count disk.old) (D.fault_count disk.new) result }
    {
        disk.barrier()?;
        let (log, payloads) = open_log(alloc, disk)?;
        match read_sets(alloc, &payloads) {
            Ok((pairs, count)) => Ok(Opened { log, pairs, count }),
            Err(refusal) => Err(refusal),
        }
    }

    /// Sets a key: the answer is the count of commands with this one. All memory is taken before the log is touched, so
    /// after `NoMemory` and `NumbersSpent` disk and store are as before. After `DiskFault` the command was accepted or not.
    pub fn set<D: Disk>(
        &mut self,
        alloc: Global,
        disk: &mut D,
        key: Word,
        value: Word,
    ) -> Result<u64, StoreError>
        requires { D.told ≡ true → KeepsLog self.old (D.contents disk.old) }
        ensures kept { D.told ≡ true → OnOk result (KeepsLog self.new (D.contents disk.new)) }
        ensures ok { OnOk result ((self.new.count ≡ self.old.count + 1) × (self.new.map ≡ insert self.old.map key value)) }
        ensures count { IfOk result (λ n. n ≡ self.old.count + 1) }
        ensures spent { (result ≡ Err StoreError.NumbersSpent) ↔ (2 ^ 62 ≤ self.old.count + 1) }
        ensures same { OnErr result (self.new ≡ self.old) }
        ensures crash { D.told ≡ true → (image : Option (List ℕ)) → result ≡ Err StoreError.DiskFault → MayLeave (D.contents disk.new) log_name image
            → IsBeforeOrAfter (LeavesHeld image) self.old (with_pair self.old key value) }
        ensures known { OnErr result ((result ≡ Err StoreError.DiskFault)
            ⊎ (((result ≡ Err StoreError.NumbersSpent) ⊎ (result ≡ Err StoreError.NoMemory)) × (disk.new ≡ disk.old))) }
        ensures cause { HasCauseAs IsStoreFault (D.fault_count disk.old) (D.fault_count disk.new) result }
    {
        if self.count + 1 >= COUNTS {
            return Err(StoreError::NumbersSpent);
        }
        let count = self.count + 1;
        let setting = Setting {
            count,
            key: key.as_str().as_bytes(),
            value: value.as_str().as_bytes(),
        };
        let payload = spell_setting(alloc, &setting)?;
        match self
            .pairs
            .set_logged(key, value, &payload, &mut self.log, disk)
        {
            Ok(()) => {
                self.count = count;
                Ok(count)
            }
            Err(refusal) => Err(refusal),
        }
    }

    /// The value of a key.
    pub fn get(&self, key: &Word) -> Option<&Word>
        ensures { option_copied result ≡ get self.now.map key.now }
    {
        self.pairs.get(key)
    }

    /// How many commands were accepted.
    pub fn count(&self) -> u64
        ensures count { result ≡ self.now.count }
        ensures below { result < 2 ^ 62 }
    {
        self.count
    }
}
