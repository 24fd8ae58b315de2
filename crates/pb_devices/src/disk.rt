ghost use Rattle.std.specs.Prelude.{◌≡◌, ℕ, ◌≤◌, ◌⊎◌, Bool, true, List, length, map, string_bytes, Some, None, IfOk, OnOk, OnErr, IsSome};
ghost use Rattle.pb_devices.specs.Counts.{HasCause, HasCauseAs};
ghost use Rattle.pb_devices.specs.Faults.{IsListFault};
ghost use Rattle.pb_devices.specs.Contents.{Contents, IsImage, MayLeave};
ghost use Rattle.pb_devices.specs.DiskCalls.{Stays, IsCreated, IsWritten, IsOver, IsScribbled, IsSynced, AllSettled, IsRemoved, IsCut};
ghost use Rattle.pb_devices.specs.Reads.{read_into, read_len, IsLength, IsWithin, AreNames};

use crate::fault::{Failed, ListError};
use std::alloc::Global;

/// A folder of files, and what a power cut may leave of it: docs/MODEL.md, "Disk".
///
/// A device may tell what it holds (`told`), and then every clause on contents speaks of `contents`. One that doesn't,
/// as a folder of a real file system, promises the counts and lengths alone.
pub trait Disk {
    /// Whether the device tells what it holds.
    ghost told: { Bool };

    /// What reads give, and what a power cut now may leave.
    ghost contents: { Self → Contents };

    /// How often a call has failed.
    ghost fault_count: { Self → ℕ };

    /// The length of a file in bytes, `None` where there is no such file.
    fn len(&mut self, file: &str) -> Result<Option<u64>, Failed>
        ensures ok { told ≡ true → IfOk result (λ found. IsLength found ((contents self.old).seen file.now)) }
        ensures kept { told ≡ true → Stays (contents self.old) (contents self.new) }
        ensures cause { HasCause (fault_count self.old) (fault_count self.new) result };

    /// Reads bytes from a place on, and answers how many: fewer than asked only at the file's end, 0 for a file that isn't there.
    fn read_at(&mut self, file: &str, at: u64, into: &mut [u8]) -> Result<usize, Failed>
        ensures within { IfOk result (λ n. n ≤ length into.old) }
        ensures ok { told ≡ true → IfOk result (λ n. n ≡ read_len ((contents self.old).seen file.now) at (length into.old)) }
        ensures bytes { told ≡ true → OnOk result (into.new ≡ read_into ((contents self.old).seen file.now) at into.old) }
        ensures kept { told ≡ true → Stays (contents self.old) (contents self.new) }
        ensures cause { HasCause (fault_count self.old) (fault_count self.new) result };

    /// The names of the files, strictly ascending.
    fn list(&mut self, alloc: Global) -> Result<Vec<String>, ListError>
        ensures ok { told ≡ true → IfOk result (λ names. AreNames (map string_bytes names.items) (contents self.old).seen) }
        ensures kept { told ≡ true → Stays (contents self.old) (contents self.new) }
        ensures cause { HasCauseAs IsListFault (fault_count self.old) (fault_count self.new) result };

    /// Makes an empty file. After `Failed` it has been made or not.
    fn create(&mut self, file: &str) -> Result<(), Failed>
        requires { told ≡ true → (contents self.old).seen file.now ≡ None }
        ensures ok { told ≡ true → OnOk result (IsCreated (contents self.old) (contents self.new) file.now) }
        ensures err { told ≡ true → OnErr result (
            IsCreated (contents self.old) (contents self.new) file.now ⊎ Stays (contents self.old) (contents self.new)) }
        ensures cause { HasCause (fault_count self.old) (fault_count self.new) result };

    /// Writes over what is there and past the end. Until a sync, a power cut may leave any bytes in the range.
    /// After `Failed` any bytes stand in the range, for reads as well, and the range is pending.
    fn write_at(&mut self, file: &str, at: u64, bytes: &[u8]) -> Result<(), Failed>
        requires { told ≡ true → IsWithin at ((contents self.old).seen file.now) }
        ensures written { told ≡ true → IsWritten (contents self.old) (contents self.new) file.now at (length bytes.now) }
        ensures ok { told ≡ true → OnOk result (IsOver (contents self.old) (contents self.new) file.now at bytes.now) }
        ensures err { told ≡ true → OnErr result (
            IsScribbled (contents self.old) (contents self.new) file.now at (length bytes.now)) }
        ensures cause { HasCause (fault_count self.old) (fault_count self.new) result };

    /// Makes the file's bytes durable as reads give them. After `Failed` nothing has become possible that wasn't.
    fn sync(&mut self, file: &str) -> Result<(), Failed>
        ensures ok { told ≡ true → OnOk result (IsSynced (contents self.old) (contents self.new) file.now) }
        ensures err { told ≡ true → OnErr result (Stays (contents self.old) (contents self.new)) }
        ensures cause { HasCause (fault_count self.old) (fault_count self.new) result };

    /// Makes all files and the list of names durable as reads give them, also after a sync that failed.
    /// After `Failed` nothing has become possible that wasn't.
    fn barrier(&mut self) -> Result<(), Failed>
        ensures ok { told ≡ true → OnOk result (AllSettled (contents self.old) (contents self.new)) }
        ensures err { told ≡ true → OnErr result (Stays (contents self.old) (contents self.new)) }
        ensures cause { HasCause (fault_count self.old) (fault_count self.new) result };

    /// Removes a file. `Ok` for one that isn't there, and then nothing changes. After `Failed` it has gone or not.
    fn remove(&mut self, file: &str) -> Result<(), Failed>
        ensures ok { told ≡ true → OnOk result (IsRemoved (contents self.old) (contents self.new) file.now) }
        ensures err { told ≡ true → OnErr result (
            IsRemoved (contents self.old) (contents self.new) file.now ⊎ Stays (contents self.old) (contents self.new)) }
        ensures cause { HasCause (fault_count self.old) (fault_count self.new) result };

    /// Cuts the power: what reads give is then one of the images, with nothing pending.
    fn power(&mut self)
        ensures cut { told ≡ true → IsCut (contents self.old) (contents self.new) }
        ensures faults { fault_count self.old ≤ fault_count self.new };

    /// How often a call has failed. It stands still at 2^64 - 1.
    fn faults(&self) -> u64
        ensures { result ≡ fault_count self.now };

    /// What reads give is one of the images.
    ghost seen_may_be_left: { (disk : Self) (name : List ℕ) → told ≡ true → MayLeave (contents disk) name ((contents disk).seen name) };
}
