ghost use Rattle.std.specs.Prelude.{◌≡◌, ℕ, ◌⊎◌, true, List, Err, IfErr, OnOk, OnErr, option_copied};
ghost use Rattle.pb_keys.specs.Key.{key_cmp};
ghost use Rattle.std.specs.FinMap.{empty, from_entries, get, insert};
ghost use Rattle.pb_devices.specs.Counts.{HasCauseAs};
ghost use Rattle.pb_gate_log.specs.Calls.{Appends};
ghost use Rattle.pb_gate_log.specs.EachLog.{EachLog};
ghost use Rattle.pebble_cli.specs.Faults.{IsStoreFault};
ghost use Rattle.pebble_cli.specs.Store.{with_last};

use crate::store_error::StoreError;
use crate::word::Word;
use pb_devices::Disk;
use pb_gate_log::GateLog;
use std::alloc::Global;
use std::collections::BTreeMap;
use std::marker::Model;

/// The value of each key, held in memory.
///
/// The pair that was set last stands beside the others, and goes to them before the next one is set. So all memory is taken
/// before a pair is set.
#[derive(Drop)]
pub struct Pairs {
    by_key: BTreeMap<Word, Word>,
    last: Option<(Word, Word)>,
}

impl Model for Pairs {
    ghost use Rattle.std.specs.FinMap.{from_entries, code};
    ghost use Rattle.std.specs.Coded.{coded_list, coded_ℕ};
    ghost use Rattle.pb_keys.specs.Map.{Map};
    ghost use Rattle.pebble_cli.specs.Store.{with_last};

    ghost Value = { Map };

    ghost coded = { code (coded_list coded_ℕ) (coded_list coded_ℕ) };

    ghost view = { λ p. with_last p.last (from_entries p.by_key.entries) };
}

impl Pairs {
    pub fn new(alloc: Global) -> Pairs
        ensures { result ≡ empty }
    {
        Pairs {
            by_key: BTreeMap::new(alloc),
            last: None,
        }
    }

    /// The value of a key.
    pub fn get(&self, key: &Word) -> Option<&Word>
        ensures { option_copied result ≡ get self.now key.now }
    {
        let Some((last, value)) = &self.last else {
            return self.by_key.get(key);
        };
        if key == last {
            return Some(value);
        }
        self.by_key.get(key)
    }

    /// Sets the value of a key. Without memory nothing has changed.
    pub fn set(&mut self, key: Word, value: Word) -> Result<(), StoreError>
        ensures ok { OnOk result (self.new ≡ insert self.old key value) }
        ensures err { OnErr result (self.new ≡ self.old) }
        ensures known { IfErr result (λ refusal. refusal ≡ StoreError.NoMemory) }
    {
        if !settle(&mut self.by_key, &mut self.last) {
            return Err(StoreError::NoMemory);
        }
        self.last = Some((key, value));
        Ok(())
    }

    /// Appends a payload to a log, and then sets the value of a key. The map makes room before the append, so what the log
    /// has taken can't fail to be set. After a refusal the map is as before, and after `NoMemory` the disk, too.
    pub fn set_logged<D: Disk>(
        &mut self,
        key: Word,
        value: Word,
        payload: &[u8],
        log: &mut GateLog,
        disk: &mut D,
    ) -> Result<(), StoreError>
        requires { D.told ≡ true → (list : List (List ℕ)) × EachLog log.old list (D.contents disk.old) }
        ensures map { OnOk result (self.new ≡ insert self.old key value) }
        ensures same { OnErr result ((self.new ≡ self.old) × (log.new ≡ log.old)) }
        ensures appends { D.told ≡ true → Appends log.old log.new payload.now (D.contents disk.old) (D.contents disk.new) result }
        ensures known { OnErr result ((result ≡ Err StoreError.DiskFault) ⊎ ((result ≡ Err StoreError.NoMemory) × (disk.new ≡ disk.old))) }
        ensures cause { HasCauseAs IsStoreFault (D.fault_count disk.old) (D.fault_count disk.new) result }
    {
        if !settle(&mut self.by_key, &mut self.last) {
            return Err(StoreError::NoMemory);
        }
        log.append(disk, payload)?;
        self.last = Some((key, value));
        Ok(())
    }
}

/// Moves the last pair to the others, and answers whether there was memory. The map that they make stays the same.
fn settle(by_key: &mut BTreeMap<Word, Word>, last: &mut Option<(Word, Word)>) -> bool
    ensures same { with_last last.new (from_entries {R = key_cmp} by_key.new.entries) ≡ with_last last.old (from_entries {R = key_cmp} by_key.old.entries) }
    ensures settled { result ≡ true → last.new ≡ None }
{
    let Some((key, value)) = last.take() else {
        return true;
    };
    match by_key.insert(key, value) {
        Ok(_) => true,
        Err(failed) => {
            *last = Some(failed.value);
            false
        }
    }
}
