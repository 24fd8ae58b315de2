ghost use Rattle.std.specs.Prelude.{◌≡◌, Ok, IfOk, false};
ghost use Rattle.std.specs.FinMap.{empty};
ghost use Rattle.pb_devices.specs.Counts.{HasCause, one_more};

use crate::objects::Objects;
use pb_devices::{Bucket, Failed, ListError};
use std::alloc::{AllocError, Global};
use std::io::{self, ErrorKind};
use std::marker::Model;

/// A bucket over a folder of the host's file system. It tells nothing of its objects: that the file system keeps what a bucket
/// promises is taken for granted, and docs/DECISIONS.md, "Host bucket", says what is done so that it can.
///
/// A name is a path below the folder; one with an empty part, `.` or `..`, or that begins with `tmp`, is a fault. Each error of
/// the system is a fault, want of memory for a path too. Another process may not use the folder meanwhile.
#[derive(Drop)]
pub struct HostBucket {
    objects: Objects,
    calls: u64,
    faults: u64,
}

impl Model for HostBucket {
    ghost use Rattle.pb_host.specs.HostBucket.{BucketCounts};

    /// How many calls were made, and how many have failed.
    ghost Value = { BucketCounts };

    ghost view = { λ bucket. record { calls = bucket.calls; faults = bucket.faults } };
}

impl HostBucket {
    /// A bucket over the folder at a path. Nothing is made until an object is put.
    pub fn new(alloc: Global, runtime: HostRuntime, path: &str) -> Result<HostBucket, AllocError>
        ensures { IfOk result (λ bucket. bucket ≡ record { calls = 0; faults = 0 }) }
    {
        Ok(HostBucket {
            objects: Objects::new(alloc, runtime, path)?,
            calls: 0,
            faults: 0,
        })
    }

    /// Counts a call, before anything else is done in it.
    fn begin(&mut self)
        ensures { self.new ≡ record self.old { calls = one_more self.old.calls } }
    {
        self.calls = self.calls.saturating_add(1);
    }

    /// Counts an error as a fault.
    fn counted<T>(&mut self, answer: io::Result<T>) -> Result<T, Failed>
        ensures ok { IfOk result (λ value. answer ≡ Ok value) }
        ensures calls { self.new.calls ≡ self.old.calls }
        ensures cause { HasCause self.old.faults self.new.faults result }
    {
        match answer {
            Ok(value) => Ok(value),
            Err(_) => {
                self.faults = self.faults.saturating_add(1);
                Err(Failed)
            }
        }
    }
}

impl Bucket for HostBucket {
    ghost told = { false };

    ghost objects = { λ _. empty };

    ghost call_count = { λ bucket. bucket.calls };

    ghost fault_count = { λ bucket. bucket.faults };

    fn put(&mut self, name: &str, bytes: &[u8]) -> Result<(), Failed> {
        self.begin();
        let put = self.objects.put(name, bytes);
        self.counted(put)
    }

    fn read_at(&mut self, name: &str, at: u64, into: &mut [u8]) -> Result<Option<usize>, Failed> {
        self.begin();
        let read = self.objects.read_at(name, at, into);
        self.counted(read)
    }

    fn size(&mut self, name: &str) -> Result<Option<u64>, Failed> {
        self.begin();
        let size = self.objects.size(name);
        self.counted(size)
    }

    fn count(&mut self, prefix: &str) -> Result<u64, Failed> {
        self.begin();
        let count = self.objects.count(prefix);
        self.counted(count)
    }

    fn list(&mut self, alloc: Global, prefix: &str) -> Result<Vec<String>, ListError> {
        self.begin();
        match self.objects.list(alloc, prefix) {
            Err(error) if error.kind() == ErrorKind::OutOfMemory => Err(ListError::NoMemory),
            listed => match self.counted(listed) {
                Ok(names) => Ok(names),
                Err(Failed) => Err(ListError::Failed),
            },
        }
    }

    fn delete(&mut self, name: &str) -> Result<(), Failed> {
        self.begin();
        let deleted = self.objects.delete(name);
        self.counted(deleted)
    }

    fn calls(&self) -> u64 {
        self.calls
    }

    fn faults(&self) -> u64 {
        self.faults
    }
}

#[cfg(test)]
mod tests {
    use super::*;
    use std::fs;
    use std::test::Fail;

    #[test]
    fn a_put_object_reads_back(rt: HostRuntime) -> Result<(), Fail> {
        let _ = fs::remove_dir_all(&rt, "objects");
        let mut bucket = HostBucket::new(rt.alloc(), rt, "objects")?;
        assert!(rt; bucket.size("obj/1/4")?.is_none());
        bucket.put("obj/1/4", b"first")?;
        bucket.put("obj/1/4", b"second")?;
        bucket.put("obj/1/4.ref.1.4", b"")?;
        let mut piece = [0u8; 8];
        assert_eq!(rt; bucket.read_at("obj/1/4", 2, &mut piece)?, Some(4));
        assert_eq!(rt; piece, *b"cond\0\0\0\0");
        assert_eq!(rt; bucket.size("obj/1/4")?, Some(6));
        assert_eq!(rt; bucket.count("obj/1/4.ref.")?, 1);
        let names = bucket.list(rt.alloc(), "obj/")?;
        assert_eq!(rt; names.len(), 2);
        assert_eq!(rt; names[0].as_str(), "obj/1/4");
        assert_eq!(rt; names[1].as_str(), "obj/1/4.ref.1.4");
        bucket.delete("obj/1/4")?;
        bucket.delete("obj/1/4")?;
        assert!(rt; bucket.size("obj/1/4")?.is_none());
        assert_eq!(rt; bucket.calls(), 11);
        assert_eq!(rt; bucket.faults(), 0);
        fs::remove_dir_all(&rt, "objects")?;
        Ok(())
    }
}
