ghost use Rattle.std.specs.Prelude.{◌≡◌, ℕ, ◌<◌, ◌≤◌, ◌⊎◌, true, map, length, string_bytes, Ok, Err, IfOk, IfErr, OnOk, OnErr};
ghost use Rattle.std.specs.Option.{option_map};
ghost use Rattle.std.specs.FinMap.{empty, get, insert, remove};
ghost use Rattle.pb_devices.specs.Counts.{HasCause, HasCauseAs, one_more};
ghost use Rattle.pb_devices.specs.Faults.{IsListFault};
ghost use Rattle.pb_devices.specs.Objects.{names_with, count_with};
ghost use Rattle.pb_devices.specs.Reads.{read_into, IsLength, IsFound, Fits};
ghost use Rattle.pb_mem.specs.Calls.{no_calls, with_call, with_list, faults_of, FailsExactly, ListsExactly};
ghost use Rattle.pb_mem.specs.Bucket.{HappensIfEven};
ghost use Rattle.pb_mem.specs.Named.{by_name};

use crate::calls::Calls;
use crate::names::{add_name, begins_with};
use crate::pieces::read_piece;
use pb_devices::{Bucket, Failed, ListError};
use std::alloc::{AllocError, Global};
use std::collections::BTreeMap;
use std::marker::Model;

/// A bucket in memory. Of the calls that fail, a put or a delete happens where its number is even.
#[derive(Drop)]
pub struct MemBucket {
    objects: BTreeMap<String, Vec<u8>>,
    calls: Calls,
    alloc: Global,
}

impl Model for MemBucket {
    ghost use Rattle.pb_mem.specs.Bucket.{BucketView, bucket_code};
    ghost use Rattle.pb_mem.specs.Named.{by_name};

    ghost Value = { BucketView };

    ghost coded = { bucket_code };

    ghost view = { λ b. record { objects = by_name (λ v. v.items) b.objects.entries; calls = b.calls } };
}

impl MemBucket {
    /// An empty bucket, whose calls with the numbers in `fail` fail, counted from 1.
    pub fn new(alloc: Global, fail: Vec<u64>) -> MemBucket
        ensures { result ≡ record { objects = empty; calls = no_calls fail.items } }
    {
        MemBucket {
            objects: BTreeMap::new(alloc),
            calls: Calls::new(fail),
            alloc,
        }
    }

    /// The bucket goes on with another list of the calls that are to fail: objects, call numbers and counts stay.
    pub fn again(self, fail: Vec<u64>) -> MemBucket
        ensures { result ≡ record self { calls = with_list self.calls fail.items } }
    {
        let MemBucket {
            objects,
            calls,
            alloc,
        } = self;
        MemBucket {
            objects,
            calls: calls.again(fail),
            alloc,
        }
    }

    /// In how many calls the bucket found no memory for itself. It stands still at 2^64 - 1.
    pub fn wants(&self) -> u64
        ensures { result ≡ self.now.calls.wants }
    {
        self.calls.wants()
    }
}

type Objects = BTreeMap<String, Vec<u8>>;

/// The object of a name.
fn object<'a>(objects: &'a Objects, name: &str) -> Option<&'a Vec<u8>>
    ensures { option_map (λ v. v.now.items) result ≡ get (by_name (λ v. v.items) objects.now.entries) name.now }
{
    objects.get(name)
}

/// Puts an object. Without memory nothing has changed.
fn store(alloc: Global, objects: &mut Objects, name: &str, bytes: &[u8]) -> Result<(), AllocError>
    ensures ok { OnOk result (by_name (λ v. v.items) objects.new.entries
        ≡ insert (by_name (λ v. v.items) objects.old.entries) name.now bytes.now) }
    ensures err { OnErr result (objects.new.entries ≡ objects.old.entries) }
{
    let name = String::from_str(alloc, name)?;
    let bytes = Vec::from_slice(alloc, bytes)?;
    objects.insert(name, bytes)?;
    Ok(())
}

/// Removes an object, if it is there.
fn erase(objects: &mut Objects, name: &str)
    ensures { by_name (λ v. v.items) objects.new.entries ≡ remove (by_name (λ v. v.items) objects.old.entries) name.now }
{
    let _ = objects.remove(name);
}

/// How many names begin with a prefix.
fn count_names(objects: &Objects, prefix: &str) -> usize
    ensures { result ≡ count_with prefix.now (by_name (λ v. v.items) objects.now.entries) }
{
    objects
        .keys()
        .filter(|name| begins_with(name, prefix))
        .count()
}

/// The names that begin with a prefix, ascending.
fn list_names(alloc: Global, objects: &Objects, prefix: &str) -> Result<Vec<String>, ListError>
    ensures ok { IfOk result (λ names.
        map string_bytes names.items ≡ names_with prefix.now (by_name (λ v. v.items) objects.now.entries)) }
    ensures err { IfErr result (λ e. e ≡ ListError.NoMemory) }
{
    let mut names = Vec::new(alloc);
    for name in objects.keys() {
        if begins_with(name, prefix) {
            add_name(alloc, &mut names, name)?;
        }
    }
    Ok(names)
}

impl Bucket for MemBucket {
    ghost told = { true };

    ghost objects = { λ b. b.objects };

    ghost call_count = { λ b. b.calls.made };

    ghost fault_count = { λ b. faults_of b.calls };

    fn put(&mut self, name: &str, bytes: &[u8]) -> Result<(), Failed>
        ensures ok { OnOk result (self.new.objects ≡ insert self.old.objects name.now bytes.now) }
        ensures err { OnErr result (
            (self.new.objects ≡ insert self.old.objects name.now bytes.now) ⊎ (self.new.objects ≡ self.old.objects)) }
        ensures half { OnErr result (HappensIfEven self.old self.new (insert self.old.objects name.now bytes.now)) }
        ensures exactly { FailsExactly self.old.calls self.new.calls result }
        ensures wanted { self.old.calls.wants < self.new.calls.wants → self.new.objects ≡ self.old.objects }
        ensures calls { self.new.calls.made ≡ one_more self.old.calls.made }
        ensures cause { HasCause (faults_of self.old.calls) (faults_of self.new.calls) result }
    {
        let begun = self.calls.begin();
        if begun.is_err() && self.calls.made() % 2 != 0 {
            return begun;
        }
        if store(self.alloc, &mut self.objects, name, bytes).is_err() {
            self.calls.want();
            return Err(Failed);
        }
        begun
    }

    fn read_at(&mut self, name: &str, at: u64, into: &mut [u8]) -> Result<Option<usize>, Failed>
        ensures within { IfOk result (Fits (length into.old)) }
        ensures ok { IfOk result (λ found. IsFound found (get self.old.objects name.now) at (length into.old)) }
        ensures bytes { OnOk result (into.new ≡ read_into (get self.old.objects name.now) at into.old) }
        ensures kept { self.new.objects ≡ self.old.objects }
        ensures exactly { FailsExactly self.old.calls self.new.calls result }
        ensures same { self.new ≡ record self.old { calls = with_call self.old.calls } }
        ensures calls { self.new.calls.made ≡ one_more self.old.calls.made }
        ensures cause { HasCause (faults_of self.old.calls) (faults_of self.new.calls) result }
    {
        self.calls.begin()?;
        match object(&self.objects, name) {
            None => Ok(None),
            Some(bytes) => Ok(Some(read_piece(bytes, at, into))),
        }
    }

    fn size(&mut self, name: &str) -> Result<Option<u64>, Failed>
        ensures ok { IfOk result (λ found. IsLength found (get self.old.objects name.now)) }
        ensures kept { self.new.objects ≡ self.old.objects }
        ensures exactly { FailsExactly self.old.calls self.new.calls result }
        ensures same { self.new ≡ record self.old { calls = with_call self.old.calls } }
        ensures calls { self.new.calls.made ≡ one_more self.old.calls.made }
        ensures cause { HasCause (faults_of self.old.calls) (faults_of self.new.calls) result }
    {
        self.calls.begin()?;
        match object(&self.objects, name) {
            None => Ok(None),
            Some(bytes) => Ok(Some(bytes.len() as u64)),
        }
    }

    fn count(&mut self, prefix: &str) -> Result<u64, Failed>
        ensures ok { IfOk result (λ n. n ≡ count_with prefix.now self.old.objects) }
        ensures kept { self.new.objects ≡ self.old.objects }
        ensures exactly { FailsExactly self.old.calls self.new.calls result }
        ensures same { self.new ≡ record self.old { calls = with_call self.old.calls } }
        ensures calls { self.new.calls.made ≡ one_more self.old.calls.made }
        ensures cause { HasCause (faults_of self.old.calls) (faults_of self.new.calls) result }
    {
        self.calls.begin()?;
        Ok(count_names(&self.objects, prefix) as u64)
    }

    fn list(&mut self, alloc: Global, prefix: &str) -> Result<Vec<String>, ListError>
        ensures ok { IfOk result (λ names. map string_bytes names.items ≡ names_with prefix.now self.old.objects) }
        ensures kept { self.new.objects ≡ self.old.objects }
        ensures calls { self.new.calls.made ≡ one_more self.old.calls.made }
        ensures cause { HasCauseAs IsListFault (faults_of self.old.calls) (faults_of self.new.calls) result }
        ensures exactly { ListsExactly self.old.calls self.new.calls result }
        ensures same { self.new ≡ record self.old { calls = with_call self.old.calls } }
    {
        if self.calls.begin().is_err() {
            return Err(ListError::Failed);
        }
        list_names(alloc, &self.objects, prefix)
    }

    fn delete(&mut self, name: &str) -> Result<(), Failed>
        ensures ok { OnOk result (self.new.objects ≡ remove self.old.objects name.now) }
        ensures err { OnErr result (
            (self.new.objects ≡ remove self.old.objects name.now) ⊎ (self.new.objects ≡ self.old.objects)) }
        ensures half { OnErr result (HappensIfEven self.old self.new (remove self.old.objects name.now)) }
        ensures exactly { FailsExactly self.old.calls self.new.calls result }
        ensures counts { self.new.calls ≡ with_call self.old.calls }
        ensures calls { self.new.calls.made ≡ one_more self.old.calls.made }
        ensures cause { HasCause (faults_of self.old.calls) (faults_of self.new.calls) result }
    {
        let begun = self.calls.begin();
        if begun.is_err() && self.calls.made() % 2 != 0 {
            return begun;
        }
        erase(&mut self.objects, name);
        begun
    }

    fn calls(&self) -> u64 {
        self.calls.made()
    }

    fn faults(&self) -> u64 {
        self.calls.faults()
    }
}

#[cfg(test)]
mod tests;
