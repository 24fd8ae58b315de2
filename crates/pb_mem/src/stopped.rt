ghost use Rattle.std.specs.Prelude.{◌≡◌, ℕ, ◌-◌, ◌<◌, ◌≤◌, ◌⊎◌, true, List, length, map, string_bytes, Some, None, Err, IfOk, OnOk, OnErr, IsOk, IsErr};
ghost use Rattle.pb_devices.specs.Counts.{HasCause, HasCauseAs, one_more};
ghost use Rattle.pb_devices.specs.Faults.{IsListFault};
ghost use Rattle.pb_devices.specs.DiskCalls.{Stays, IsCreated, IsWritten, IsOver, IsScribbled, IsSynced, AllSettled, IsRemoved, IsCut};
ghost use Rattle.pb_devices.specs.Reads.{read_into, read_len, IsLength, IsWithin, AreNames};
ghost use Rattle.pb_mem.specs.Stopped.{faults_and};

use pb_devices::{Disk, Failed, ListError};
use std::alloc::Global;
use std::marker::Model;

/// A disk that passes so many calls on to another, and fails each later one without doing anything. `power` is passed on always.
#[derive(Drop)]
pub struct StoppedDisk<D> {
    inner: D,
    left: u64,
    refused: u64,
}

impl<D> Model for StoppedDisk<D> {
    ghost use Rattle.pb_mem.specs.Stopped.{StoppedView};

    ghost Value = { StoppedView D };

    ghost view = { λ d. record { inner = d.inner; left = d.left; refused = d.refused } };
}

impl<D> StoppedDisk<D> {
    /// The disk, stopped after so many calls from now on.
    pub fn new(disk: D, calls: u64) -> StoppedDisk<D>
        ensures { result ≡ record { inner = disk; left = calls; refused = 0 } }
    {
        StoppedDisk {
            inner: disk,
            left: calls,
            refused: 0,
        }
    }

    /// The disk as the calls that were passed on have left it.
    pub fn into_inner(self) -> D
        ensures { result ≡ self.inner }
    {
        let StoppedDisk {
            inner,
            left: _,
            refused: _,
        } = self;
        inner
    }

    /// Whether a call is passed on. One that isn't is counted as refused, and fails.
    fn pass(&mut self) -> Result<(), Failed>
        ensures stopped { self.old.left ≡ 0 → IsErr result
            × (self.new ≡ record self.old { refused = one_more self.old.refused }) }
        ensures inner { self.new.inner ≡ self.old.inner }
        ensures passed { 0 < self.old.left → IsOk result × (self.new ≡ record self.old { left = self.old.left - 1 }) }
    {
        if self.left == 0 {
            self.refused = self.refused.saturating_add(1);
            return Err(Failed);
        }
        self.left -= 1;
        Ok(())
    }
}

impl<D: Disk> Disk for StoppedDisk<D> {
    ghost told = { D.told };

    ghost contents = { λ d. D.contents d.inner };

    ghost fault_count = { λ d. faults_and (D.fault_count d.inner) d.refused };

    fn len(&mut self, file: &str) -> Result<Option<u64>, Failed>
        ensures ok { D.told ≡ true → IfOk result (λ found. IsLength found ((D.contents self.old.inner).seen file.now)) }
        ensures kept { D.told ≡ true → Stays (D.contents self.old.inner) (D.contents self.new.inner) }
        ensures cause { HasCause (faults_and (D.fault_count self.old.inner) self.old.refused)
            (faults_and (D.fault_count self.new.inner) self.new.refused) result }
        ensures stopped { self.old.left ≡ 0 → IsErr result × (self.new.inner ≡ self.old.inner) }
        ensures left { self.new.left ≡ self.old.left - 1 }
    {
        self.pass()?;
        self.inner.len(file)
    }

    fn read_at(&mut self, file: &str, at: u64, into: &mut [u8]) -> Result<usize, Failed>
        ensures within { IfOk result (λ n. n ≤ length into.old) }
        ensures ok { D.told ≡ true → IfOk result (λ n. n ≡ read_len ((D.contents self.old.inner).seen file.now) at (length into.old)) }
        ensures bytes { D.told ≡ true → OnOk result (into.new ≡ read_into ((D.contents self.old.inner).seen file.now) at into.old) }
        ensures kept { D.told ≡ true → Stays (D.contents self.old.inner) (D.contents self.new.inner) }
        ensures cause { HasCause (faults_and (D.fault_count self.old.inner) self.old.refused)
            (faults_and (D.fault_count self.new.inner) self.new.refused) result }
        ensures stopped { self.old.left ≡ 0 → IsErr result × (self.new.inner ≡ self.old.inner) }
        ensures left { self.new.left ≡ self.old.left - 1 }
    {
        self.pass()?;
        self.inner.read_at(file, at, into)
    }

    fn list(&mut self, alloc: Global) -> Result<Vec<String>, ListError>
        ensures ok { D.told ≡ true → IfOk result (λ names. AreNames (map string_bytes names.items) (D.contents self.old.inner).seen) }
        ensures kept { D.told ≡ true → Stays (D.contents self.old.inner) (D.contents self.new.inner) }
        ensures cause { HasCauseAs IsListFault (faults_and (D.fault_count self.old.inner) self.old.refused)
            (faults_and (D.fault_count self.new.inner) self.new.refused) result }
        ensures stopped { self.old.left ≡ 0 → (result ≡ Err ListError.Failed) × (self.new.inner ≡ self.old.inner) }
        ensures left { self.new.left ≡ self.old.left - 1 }
    {
        if self.pass().is_err() {
            return Err(ListError::Failed);
        }
        self.inner.list(alloc)
    }

    fn create(&mut self, file: &str) -> Result<(), Failed>
        requires { D.told ≡ true → (D.contents self.old.inner).seen file.now ≡ None }
        ensures ok { D.told ≡ true → OnOk result (IsCreated (D.contents self.old.inner) (D.contents self.new.inner) file.now) }
        ensures err { D.told ≡ true → OnErr result (IsCreated (D.contents self.old.inner) (D.contents self.new.inner) file.now
            ⊎ Stays (D.contents self.old.inner) (D.contents self.new.inner)) }
        ensures cause { HasCause (faults_and (D.fault_count self.old.inner) self.old.refused)
            (faults_and (D.fault_count self.new.inner) self.new.refused) result }
        ensures stopped { self.old.left ≡ 0 → IsErr result × (self.new.inner ≡ self.old.inner) }
        ensures left { self.new.left ≡ self.old.left - 1 }
    {
        self.pass()?;
        self.inner.create(file)
    }

    fn write_at(&mut self, file: &str, at: u64, bytes: &[u8]) -> Result<(), Failed>
        requires { D.told ≡ true → IsWithin at ((D.contents self.old.inner).seen file.now) }
        ensures written { D.told ≡ true
            → IsWritten (D.contents self.old.inner) (D.contents self.new.inner) file.now at (length bytes.now) }
        ensures ok { D.told ≡ true
            → OnOk result (IsOver (D.contents self.old.inner) (D.contents self.new.inner) file.now at bytes.now) }
        ensures err { D.told ≡ true
            → OnErr result (IsScribbled (D.contents self.old.inner) (D.contents self.new.inner) file.now at (length bytes.now)) }
        ensures cause { HasCause (faults_and (D.fault_count self.old.inner) self.old.refused)
            (faults_and (D.fault_count self.new.inner) self.new.refused) result }
        ensures stopped { self.old.left ≡ 0 → IsErr result × (self.new.inner ≡ self.old.inner) }
        ensures left { self.new.left ≡ self.old.left - 1 }
    {
        self.pass()?;
        self.inner.write_at(file, at, bytes)
    }

    fn sync(&mut self, file: &str) -> Result<(), Failed>
        ensures ok { D.told ≡ true → OnOk result (IsSynced (D.contents self.old.inner) (D.contents self.new.inner) file.now) }
        ensures err { D.told ≡ true → OnErr result (Stays (D.contents self.old.inner) (D.contents self.new.inner)) }
        ensures cause { HasCause (faults_and (D.fault_count self.old.inner) self.old.refused)
            (faults_and (D.fault_count self.new.inner) self.new.refused) result }
        ensures stopped { self.old.left ≡ 0 → IsErr result × (self.new.inner ≡ self.old.inner) }
        ensures left { self.new.left ≡ self.old.left - 1 }
    {
        self.pass()?;
        self.inner.sync(file)
    }

    fn barrier(&mut self) -> Result<(), Failed>
        ensures ok { D.told ≡ true → OnOk result (AllSettled (D.contents self.old.inner) (D.contents self.new.inner)) }
        ensures err { D.told ≡ true → OnErr result (Stays (D.contents self.old.inner) (D.contents self.new.inner)) }
        ensures cause { HasCause (faults_and (D.fault_count self.old.inner) self.old.refused)
            (faults_and (D.fault_count self.new.inner) self.new.refused) result }
        ensures stopped { self.old.left ≡ 0 → IsErr result × (self.new.inner ≡ self.old.inner) }
        ensures left { self.new.left ≡ self.old.left - 1 }
    {
        self.pass()?;
        self.inner.barrier()
    }

    fn remove(&mut self, file: &str) -> Result<(), Failed>
        ensures ok { D.told ≡ true → OnOk result (IsRemoved (D.contents self.old.inner) (D.contents self.new.inner) file.now) }
        ensures err { D.told ≡ true → OnErr result (IsRemoved (D.contents self.old.inner) (D.contents self.new.inner) file.now
            ⊎ Stays (D.contents self.old.inner) (D.contents self.new.inner)) }
        ensures cause { HasCause (faults_and (D.fault_count self.old.inner) self.old.refused)
            (faults_and (D.fault_count self.new.inner) self.new.refused) result }
        ensures stopped { self.old.left ≡ 0 → IsErr result × (self.new.inner ≡ self.old.inner) }
        ensures left { self.new.left ≡ self.old.left - 1 }
    {
        self.pass()?;
        self.inner.remove(file)
    }

    /// The power of the other disk is cut, whether or not calls are left. Then as many are left as before.
    fn power(&mut self)
        ensures cut { D.told ≡ true → IsCut (D.contents self.old.inner) (D.contents self.new.inner) }
        ensures faults { faults_and (D.fault_count self.old.inner) self.old.refused
            ≤ faults_and (D.fault_count self.new.inner) self.new.refused }
        ensures left { self.new.left ≡ self.old.left }
        ensures refused { self.new.refused ≡ self.old.refused }
    {
        self.inner.power();
    }

    fn faults(&self) -> u64 {
        self.inner.faults().saturating_add(self.refused)
    }

    ghost seen_may_be_left = { λ disk name told. D.seen_may_be_left disk.inner name told };
}
