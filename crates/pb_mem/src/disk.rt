ghost use Rattle.std.specs.Prelude.{◌≡◌, ℕ, ◌<◌, ◌≤◌, ◌⊎◌, true, List, length, map, string_bytes, Some, None, Err, IfOk, OnOk, OnErr, IsErr};
ghost use Rattle.std.specs.FinMap.{empty, get};
ghost use Rattle.pb_devices.specs.Counts.{HasCause, HasCauseAs, Rose};
ghost use Rattle.pb_devices.specs.Faults.{IsListFault};
ghost use Rattle.pb_devices.specs.Contents.{Contents, IsImage, MayLeave};
ghost use Rattle.pb_devices.specs.DiskCalls.{Stays, IsCreated, IsWritten, IsOver, IsScribbled, IsSynced, AllSettled, IsRemoved, IsCut};
ghost use Rattle.pb_devices.specs.Reads.{read_into, read_len, IsLength, IsWithin, AreNames};
ghost use Rattle.pb_mem.specs.Calls.{no_calls, with_call, with_list, faults_of, FailsExactly, ListsExactly};
ghost use Rattle.pb_mem.specs.Files.{written, scribbled, synced};
ghost use Rattle.pb_mem.specs.Disk.{held, LeavesAt, HappensAtPick, ReadsScribbled};
ghost use Rattle.pb_mem.specs.Slots.{created, after_removal, with_file, ChangesAt, AreSettled, ArePicked};
ghost use Rattle.pb_mem.specs.Seen.{seen_left};

use crate::calls::Calls;
use crate::folder::{
    Slots, create_file, cut_all, file_at, file_len, list_files, read_file, remove_file,
    scribble_file, settle_all, sync_file, write_file,
};
use crate::slot::happens;
use pb_devices::{Disk, Failed, ListError};
use std::alloc::Global;
use std::collections::BTreeMap;
use std::marker::Model;

/// A disk in memory. Its `pick` chooses the image that a power cut leaves, and what a changing call that fails leaves.
#[derive(Drop)]
pub struct MemDisk {
    slots: Slots,
    calls: Calls,
    pick: u64,
    alloc: Global,
}

impl Model for MemDisk {
    ghost use Rattle.pb_mem.specs.Disk.{DiskView, disk_code};
    ghost use Rattle.pb_mem.specs.Named.{by_name};

    ghost Value = { DiskView };

    ghost coded = { disk_code };

    ghost view = { λ d. record { slots = by_name (λ s. s) d.slots.entries; calls = d.calls; pick = d.pick } };
}

impl MemDisk {
    /// An empty folder, whose calls with the numbers in `fail` fail, counted from 1.
    pub fn new(alloc: Global, fail: Vec<u64>, pick: u64) -> MemDisk
        ensures { result ≡ record { slots = empty; calls = no_calls fail.items; pick = pick } }
    {
        MemDisk {
            slots: BTreeMap::new(alloc),
            calls: Calls::new(fail),
            pick,
            alloc,
        }
    }

    /// The disk goes on with another list of the calls that are to fail, and another pick: folder, images, call numbers
    /// and counts stay.
    pub fn again(self, fail: Vec<u64>, pick: u64) -> MemDisk
        ensures { result ≡ record self { calls = with_list self.calls fail.items; pick = pick } }
    {
        let MemDisk {
            slots,
            calls,
            pick: _,
            alloc,
        } = self;
        MemDisk {
            slots,
            calls: calls.again(fail),
            pick,
            alloc,
        }
    }

    /// How many calls of the trait were made, but for `power` and `faults`. It stands still at 2^64 - 1.
    pub fn calls(&self) -> u64
        ensures { result ≡ self.now.calls.made }
    {
        self.calls.made()
    }

    /// In how many calls the disk found no memory for itself. It stands still at 2^64 - 1.
    pub fn wants(&self) -> u64
        ensures { result ≡ self.now.calls.wants }
    {
        self.calls.wants()
    }
}

impl Disk for MemDisk {
    ghost told = { true };

    ghost contents = { held };

    ghost fault_count = { λ d. faults_of d.calls };

    fn len(&mut self, file: &str) -> Result<Option<u64>, Failed>
        ensures ok { IfOk result (λ found. IsLength found ((held self.old).seen file.now)) }
        ensures kept { Stays (held self.old) (held self.new) }
        ensures cause { HasCause (faults_of self.old.calls) (faults_of self.new.calls) result }
        ensures exactly { FailsExactly self.old.calls self.new.calls result }
        ensures same { self.new ≡ record self.old { calls = with_call self.old.calls } }
    {
        self.calls.begin()?;
        Ok(file_len(&self.slots, file))
    }

    fn read_at(&mut self, file: &str, at: u64, into: &mut [u8]) -> Result<usize, Failed>
        ensures within { IfOk result (λ n. n ≤ length into.old) }
        ensures ok { IfOk result (λ n. n ≡ read_len ((held self.old).seen file.now) at (length into.old)) }
        ensures bytes { OnOk result (into.new ≡ read_into ((held self.old).seen file.now) at into.old) }
        ensures kept { Stays (held self.old) (held self.new) }
        ensures cause { HasCause (faults_of self.old.calls) (faults_of self.new.calls) result }
        ensures exactly { FailsExactly self.old.calls self.new.calls result }
        ensures same { self.new ≡ record self.old { calls = with_call self.old.calls } }
    {
        self.calls.begin()?;
        Ok(read_file(&self.slots, file, at, into))
    }

    fn list(&mut self, alloc: Global) -> Result<Vec<String>, ListError>
        ensures ok { IfOk result (λ names. AreNames (map string_bytes names.items) (held self.old).seen) }
        ensures kept { Stays (held self.old) (held self.new) }
        ensures cause { HasCauseAs IsListFault (faults_of self.old.calls) (faults_of self.new.calls) result }
        ensures exactly { ListsExactly self.old.calls self.new.calls result }
        ensures same { self.new ≡ record self.old { calls = with_call self.old.calls } }
    {
        if self.calls.begin().is_err() {
            return Err(ListError::Failed);
        }
        list_files(alloc, &self.slots)
    }

    /// A listed creation, which fails, has happened where the pick lets it; one without memory hasn't.
    fn create(&mut self, file: &str) -> Result<(), Failed>
        requires { (held self.old).seen file.now ≡ None }
        ensures ok { OnOk result (IsCreated (held self.old) (held self.new) file.now) }
        ensures err { OnErr result (IsCreated (held self.old) (held self.new) file.now ⊎ Stays (held self.old) (held self.new)) }
        ensures cause { HasCause (faults_of self.old.calls) (faults_of self.new.calls) result }
        ensures exactly { FailsExactly self.old.calls self.new.calls result }
        ensures made { OnOk result (ChangesAt self.old.slots self.new.slots file.now (Some (created (get self.old.slots file.now)))) }
        ensures happened { OnErr result (HappensAtPick self.old self.new file.now (Some (created (get self.old.slots file.now)))) }
        ensures wanted { self.old.calls.wants < self.new.calls.wants → self.new.slots ≡ self.old.slots }
        ensures pick { self.new.pick ≡ self.old.pick }
    {
        let begun = self.calls.begin();
        if !happens(self.pick) && begun.is_err() {
            return begun;
        }
        if create_file(self.alloc, &mut self.slots, file).is_err() {
            self.calls.want();
            return Err(Failed);
        }
        begun
    }

    /// After a listed write, which fails, reads give in its range what stood there (pick 0), the bytes (1) or those of the pick.
    /// One without memory has changed nothing.
    fn write_at(&mut self, file: &str, at: u64, bytes: &[u8]) -> Result<(), Failed>
        requires { IsWithin at ((held self.old).seen file.now) }
        ensures written { IsWritten (held self.old) (held self.new) file.now at (length bytes.now) }
        ensures ok { OnOk result (IsOver (held self.old) (held self.new) file.now at bytes.now) }
        ensures err { OnErr result (IsScribbled (held self.old) (held self.new) file.now at (length bytes.now)) }
        ensures cause { HasCause (faults_of self.old.calls) (faults_of self.new.calls) result }
        ensures exactly { FailsExactly self.old.calls self.new.calls result }
        ensures over { OnOk result (ChangesAt self.old.slots self.new.slots file.now
            (with_file (λ f. written f at bytes.now) (get self.old.slots file.now))) }
        ensures left { OnErr result (LeavesAt self.old self.new file.now
            (with_file (λ f. scribbled self.old.pick f at bytes.now) (get self.old.slots file.now))) }
        ensures reads { OnErr result (Rose self.old.calls.wants self.new.calls.wants
            ⊎ ReadsScribbled self.old self.new file.now at bytes.now) }
        ensures wanted { self.old.calls.wants < self.new.calls.wants → self.new.slots ≡ self.old.slots }
        ensures pick { self.new.pick ≡ self.old.pick }
    {
        if self.calls.begin().is_err() {
            if scribble_file(
                self.alloc,
                &mut self.slots,
                file,
                at as usize,
                bytes,
                self.pick,
            )
            .is_err()
            {
                self.calls.want();
                return Err(Failed);
            }
            return Err(Failed);
        }
        if write_file(self.alloc, &mut self.slots, file, at as usize, bytes).is_err() {
            self.calls.want();
            return Err(Failed);
        }
        Ok(())
    }

    fn sync(&mut self, file: &str) -> Result<(), Failed>
        ensures ok { OnOk result (IsSynced (held self.old) (held self.new) file.now) }
        ensures err { OnErr result (Stays (held self.old) (held self.new)) }
        ensures cause { HasCause (faults_of self.old.calls) (faults_of self.new.calls) result }
        ensures exactly { FailsExactly self.old.calls self.new.calls result }
        ensures durable { OnOk result (ChangesAt self.old.slots self.new.slots file.now (with_file synced (get self.old.slots file.now))) }
        ensures unsynced { OnErr result (self.new.slots ≡ self.old.slots) }
        ensures calls { self.new.calls ≡ with_call self.old.calls }
        ensures pick { self.new.pick ≡ self.old.pick }
    {
        self.calls.begin()?;
        sync_file(&mut self.slots, file);
        Ok(())
    }

    fn barrier(&mut self) -> Result<(), Failed>
        ensures ok { OnOk result (AllSettled (held self.old) (held self.new)) }
        ensures err { OnErr result (Stays (held self.old) (held self.new)) }
        ensures cause { HasCause (faults_of self.old.calls) (faults_of self.new.calls) result }
        ensures exactly { FailsExactly self.old.calls self.new.calls result }
        ensures durable { OnOk result (AreSettled self.old.slots self.new.slots) }
        ensures unsettled { OnErr result (self.new.slots ≡ self.old.slots) }
        ensures calls { self.new.calls ≡ with_call self.old.calls }
        ensures pick { self.new.pick ≡ self.old.pick }
    {
        self.calls.begin()?;
        settle_all(&mut self.slots);
        Ok(())
    }

    /// A listed removal, which fails, has happened where the pick lets it; one without memory hasn't.
    fn remove(&mut self, file: &str) -> Result<(), Failed>
        ensures ok { OnOk result (IsRemoved (held self.old) (held self.new) file.now) }
        ensures err { OnErr result (IsRemoved (held self.old) (held self.new) file.now ⊎ Stays (held self.old) (held self.new)) }
        ensures cause { HasCause (faults_of self.old.calls) (faults_of self.new.calls) result }
        ensures exactly { FailsExactly self.old.calls self.new.calls result }
        ensures gone { OnOk result (ChangesAt self.old.slots self.new.slots file.now (after_removal (get self.old.slots file.now))) }
        ensures happened { OnErr result (HappensAtPick self.old self.new file.now (after_removal (get self.old.slots file.now))) }
        ensures wanted { self.old.calls.wants < self.new.calls.wants → self.new.slots ≡ self.old.slots }
        ensures pick { self.new.pick ≡ self.old.pick }
    {
        let begun = self.calls.begin();
        if file_at(&self.slots, file).is_none() {
            return begun;
        }
        if begun.is_err() && !happens(self.pick) {
            return begun;
        }
        if remove_file(&mut self.slots, file).is_err() {
            self.calls.want();
            return Err(Failed);
        }
        begun
    }

    /// The folder becomes the image that the pick names.
    fn power(&mut self)
        ensures cut { IsCut (held self.old) (held self.new) }
        ensures picked { ArePicked self.old.pick self.old.slots self.new.slots }
        ensures faults { faults_of self.old.calls ≤ faults_of self.new.calls }
        ensures calls { self.new.calls ≡ self.old.calls }
        ensures pick { self.new.pick ≡ self.old.pick }
    {
        cut_all(&mut self.slots, self.pick);
    }

    fn faults(&self) -> u64 {
        self.calls.faults()
    }

    ghost seen_may_be_left = { λ disk name _. seen_left disk.slots name };
}

#[cfg(test)]
mod tests;
