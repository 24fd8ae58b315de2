ghost use Rattle.std.specs.Prelude.{◌≡◌, ℕ, ◌<◌, ◌≤◌, ◌++◌, [], Bool, true, List, length, take, drop, IfOk, OnErr};
ghost use Rattle.pb_devices.specs.Counts.{HasCause};
ghost use Rattle.pb_devices.specs.Streams.{Gives};

use crate::fault::Failed;

/// A stream of bytes to read. `told` is as for a disk.
pub trait Source {
    /// Whether the device tells what it has left.
    ghost told: { Bool };

    /// The bytes that are still to be read.
    ghost left: { Self → List ℕ };

    /// How often a call has failed.
    ghost fault_count: { Self → ℕ };

    /// Reads the next bytes and answers how many: 0 for a piece that isn't empty only at the end.
    /// After `Failed` nothing is said of what is left.
    fn read(&mut self, into: &mut [u8]) -> Result<usize, Failed>
        ensures within { IfOk result (λ n. n ≤ length into.old) }
        ensures ok { told ≡ true → IfOk result (λ n. Gives (left self.old) (left self.new) into.old into.new n) }
        ensures cause { HasCause (fault_count self.old) (fault_count self.new) result };

    /// How often a call has failed. It stands still at 2^64 - 1.
    fn faults(&self) -> u64
        ensures { result ≡ fault_count self.now };
}

/// A stream of bytes to write. `told` is as for a disk.
pub trait Sink {
    /// Whether the device tells what it has taken.
    ghost told: { Bool };

    /// The bytes that were taken, in order.
    ghost taken: { Self → List ℕ };

    /// How often a call has failed.
    ghost fault_count: { Self → ℕ };

    /// Takes the first bytes of a piece, behind all that it took before, and answers how many: at least one of a piece that
    /// isn't empty. After `Failed` it has taken none.
    fn write(&mut self, bytes: &[u8]) -> Result<usize, Failed>
        ensures within { IfOk result (λ n. n ≤ length bytes.now) }
        ensures some { IfOk result (λ n. 0 < length bytes.now → 0 < n) }
        ensures ok { told ≡ true → IfOk result (λ n. taken self.new ≡ taken self.old ++ take n bytes.now) }
        ensures err { told ≡ true → OnErr result (taken self.new ≡ taken self.old) }
        ensures cause { HasCause (fault_count self.old) (fault_count self.new) result };

    /// How often a call has failed. It stands still at 2^64 - 1.
    fn faults(&self) -> u64
        ensures { result ≡ fault_count self.now };
}
