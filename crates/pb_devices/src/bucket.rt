ghost use Rattle.std.specs.Prelude.{◌≡◌, ℕ, ◌≤◌, ◌⊎◌, Bool, true, List, length, map, string_bytes, Some, None, IfOk, OnOk, OnErr};
ghost use Rattle.std.specs.FinMap.{get, insert, remove};
ghost use Rattle.pb_devices.specs.Counts.{HasCause, HasCauseAs, one_more};
ghost use Rattle.pb_devices.specs.Faults.{IsListFault};
ghost use Rattle.pb_devices.specs.Objects.{Objects, names_with, count_with};
ghost use Rattle.pb_devices.specs.Reads.{read_into, IsLength, IsFound, Fits};

use crate::fault::{Failed, ListError};
use std::alloc::Global;

/// A bucket of named objects: docs/MODEL.md, "Bucket".
///
/// A put is whole: a call that failed has happened whole or not at all. Counts and lists see all finished puts and deletes.
/// `told` is as for a disk.
pub trait Bucket {
    /// Whether the device tells what it holds.
    ghost told: { Bool };

    /// The objects by name.
    ghost objects: { Self → Objects };

    /// How many of the six calls below were made.
    ghost call_count: { Self → ℕ };

    /// How often a call has failed.
    ghost fault_count: { Self → ℕ };

    /// Puts an object, whether or not the name was there. After `Failed` it was put or not.
    fn put(&mut self, name: &str, bytes: &[u8]) -> Result<(), Failed>
        ensures ok { told ≡ true → OnOk result (objects self.new ≡ insert (objects self.old) name.now bytes.now) }
        ensures err { told ≡ true → OnErr result (
            (objects self.new ≡ insert (objects self.old) name.now bytes.now) ⊎ (objects self.new ≡ objects self.old)) }
        ensures calls { call_count self.new ≡ one_more (call_count self.old) }
        ensures cause { HasCause (fault_count self.old) (fault_count self.new) result };

    /// Reads bytes of an object from a place on, and answers how many: fewer than asked only at its end. `None` where the name isn't there.
    fn read_at(&mut self, name: &str, at: u64, into: &mut [u8]) -> Result<Option<usize>, Failed>
        ensures within { IfOk result (Fits (length into.old)) }
        ensures ok { told ≡ true → IfOk result (λ found. IsFound found (get (objects self.old) name.now) at (length into.old)) }
        ensures bytes { told ≡ true → OnOk result (into.new ≡ read_into (get (objects self.old) name.now) at into.old) }
        ensures kept { told ≡ true → objects self.new ≡ objects self.old }
        ensures calls { call_count self.new ≡ one_more (call_count self.old) }
        ensures cause { HasCause (fault_count self.old) (fault_count self.new) result };

    /// The size of an object in bytes, `None` where the name isn't there.
    fn size(&mut self, name: &str) -> Result<Option<u64>, Failed>
        ensures ok { told ≡ true → IfOk result (λ found. IsLength found (get (objects self.old) name.now)) }
        ensures kept { told ≡ true → objects self.new ≡ objects self.old }
        ensures calls { call_count self.new ≡ one_more (call_count self.old) }
        ensures cause { HasCause (fault_count self.old) (fault_count self.new) result };

    /// How many names begin with a prefix.
    fn count(&mut self, prefix: &str) -> Result<u64, Failed>
        ensures ok { told ≡ true → IfOk result (λ n. n ≡ count_with prefix.now (objects self.old)) }
        ensures kept { told ≡ true → objects self.new ≡ objects self.old }
        ensures calls { call_count self.new ≡ one_more (call_count self.old) }
        ensures cause { HasCause (fault_count self.old) (fault_count self.new) result };

    /// The names that begin with a prefix, ascending.
    fn list(&mut self, alloc: Global, prefix: &str) -> Result<Vec<String>, ListError>
        ensures ok { told ≡ true → IfOk result (λ names. map string_bytes names.items ≡ names_with prefix.now (objects self.old)) }
        ensures kept { told ≡ true → objects self.new ≡ objects self.old }
        ensures calls { call_count self.new ≡ one_more (call_count self.old) }
        ensures cause { HasCauseAs IsListFault (fault_count self.old) (fault_count self.new) result };

    /// Deletes an object. `Ok` where the name isn't there, and then nothing changes. After `Failed` it has gone or not.
    fn delete(&mut self, name: &str) -> Result<(), Failed>
        ensures ok { told ≡ true → OnOk result (objects self.new ≡ remove (objects self.old) name.now) }
        ensures err { told ≡ true → OnErr result (
            (objects self.new ≡ remove (objects self.old) name.now) ⊎ (objects self.new ≡ objects self.old)) }
        ensures calls { call_count self.new ≡ one_more (call_count self.old) }
        ensures cause { HasCause (fault_count self.old) (fault_count self.new) result };

    /// How many of the six calls above were made. It stands still at 2^64 - 1.
    fn calls(&self) -> u64
        ensures { result ≡ call_count self.now };

    /// How often a call has failed. It stands still at 2^64 - 1.
    fn faults(&self) -> u64
        ensures { result ≡ fault_count self.now };
}
