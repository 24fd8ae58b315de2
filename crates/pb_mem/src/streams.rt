ghost use Rattle.std.specs.Prelude.{◌≡◌, ℕ, ◌<◌, ◌≤◌, ◌++◌, ◌↔◌, min, [], true, length, take, IfOk, OnOk, OnErr, IsErr};
ghost use Rattle.pb_devices.specs.Counts.{HasCause};
ghost use Rattle.pb_devices.specs.Streams.{Gives};
ghost use Rattle.pb_mem.specs.Calls.{IsListed, FailsExactly, no_calls, with_call, faults_of};

use crate::calls::Calls;
use pb_devices::{Failed, Sink, Source};
use std::alloc::Global;
use std::marker::Model;

/// A source that gives the bytes of a vector, as much as fits at each read.
#[derive(Drop)]
pub struct MemSource {
    bytes: Vec<u8>,
    at: usize,
    calls: Calls,
}

impl Model for MemSource {
    ghost use Rattle.std.specs.Prelude.{◌≡◌, ◌≤◌, drop, vec_len};
    ghost use Rattle.pb_mem.specs.Streams.{Unread};

    ghost Value = { Unread };

    ghost view = { λ s. record { left = drop s.at s.bytes.items; calls = s.calls } };

    ghost invariant = { λ s. (s.at ≤ vec_len s.bytes) × (s.calls.wants ≡ 0) };
}

impl MemSource {
    /// A source of these bytes, whose reads with the numbers in `fail` fail, counted from 1.
    pub fn new(bytes: Vec<u8>, fail: Vec<u64>) -> MemSource
        ensures { result ≡ record { left = bytes.items; calls = no_calls fail.items } }
    {
        MemSource {
            bytes,
            at: 0,
            calls: Calls::new(fail),
        }
    }

    /// The bytes that are still to be read.
    pub fn left(&self) -> &[u8]
        ensures { result.now ≡ self.now.left }
    {
        &self.bytes[self.at..]
    }

    /// How often the source found no memory for itself: never, since it takes none.
    pub fn wants(&self) -> u64
        ensures { result ≡ 0 }
    {
        self.calls.wants()
    }
}

impl Source for MemSource {
    ghost told = { true };

    ghost left = { λ s. s.left };

    ghost fault_count = { λ s. faults_of s.calls };

    /// A read that fails leaves what is left, and the piece.
    fn read(&mut self, into: &mut [u8]) -> Result<usize, Failed>
        ensures within { IfOk result (λ n. n ≤ length into.old) }
        ensures ok { IfOk result (λ n. Gives self.old.left self.new.left into.old into.new n) }
        ensures cause { HasCause (faults_of self.old.calls) (faults_of self.new.calls) result }

        ensures whole { IfOk result (λ n. n ≡ min (length into.old) (length self.old.left)) }
        ensures err { OnErr result (self.new.left ≡ self.old.left) }
        ensures piece { OnErr result (into.new ≡ into.old) }
        ensures counts { self.new.calls ≡ with_call self.old.calls }
        ensures failed { IsErr result ↔ IsListed self.old.calls }
    {
        self.calls.begin()?;
        let rest = &self.bytes[self.at..];
        let count = rest.len().min(into.len());
        into[..count].copy_from_slice(&rest[..count]);
        self.at += count;
        Ok(count)
    }

    fn faults(&self) -> u64 {
        self.calls.faults()
    }
}

/// A sink that keeps what it takes, each piece whole.
#[derive(Drop)]
pub struct MemSink {
    taken: Vec<u8>,
    calls: Calls,
}

impl Model for MemSink {
    ghost use Rattle.pb_mem.specs.Streams.{Taken};

    ghost Value = { Taken };

    ghost view = { λ s. record { bytes = s.taken.items; calls = s.calls } };
}

impl MemSink {
    /// A sink that has taken nothing yet, whose writes with the numbers in `fail` fail, counted from 1.
    pub fn new(alloc: Global, fail: Vec<u64>) -> MemSink
        ensures { result ≡ record { bytes = []; calls = no_calls fail.items } }
    {
        MemSink {
            taken: Vec::new(alloc),
            calls: Calls::new(fail),
        }
    }

    /// The bytes that were taken, in order.
    pub fn taken(&self) -> &[u8]
        ensures { result.now ≡ self.now.bytes }
    {
        &self.taken
    }

    /// How often the sink found no memory for a piece. It stands still at 2^64 - 1.
    pub fn wants(&self) -> u64
        ensures { result ≡ self.now.calls.wants }
    {
        self.calls.wants()
    }
}

impl Sink for MemSink {
    ghost told = { true };

    ghost taken = { λ s. s.bytes };

    ghost fault_count = { λ s. faults_of s.calls };

    /// A write fails where it is listed, and where there is no memory for the piece.
    fn write(&mut self, bytes: &[u8]) -> Result<usize, Failed>
        ensures within { IfOk result (λ n. n ≤ length bytes.now) }
        ensures some { IfOk result (λ n. 0 < length bytes.now → 0 < n) }
        ensures ok { IfOk result (λ n. self.new.bytes ≡ self.old.bytes ++ take n bytes.now) }
        ensures err { OnErr result (self.new.bytes ≡ self.old.bytes) }
        ensures cause { HasCause (faults_of self.old.calls) (faults_of self.new.calls) result }

        ensures whole { IfOk result (λ n. n ≡ length bytes.now) }
        ensures failed { FailsExactly self.old.calls self.new.calls result }
    {
        self.calls.begin()?;
        match self.taken.extend_from_slice(bytes) {
            Ok(()) => Ok(bytes.len()),
            Err(_) => {
                self.calls.want();
                Err(Failed)
            }
        }
    }

    fn faults(&self) -> u64 {
        self.calls.faults()
    }
}

#[cfg(test)]
mod tests {
    use super::*;
    use std::test::Fail;

    #[test]
    fn a_source_gives_what_fits_but_at_the_listed_call(rt: HostRuntime) -> Result<(), Fail> {
        let alloc = rt.alloc();
        let bytes = b"abcde".to_vec(alloc)?;
        let mut source = MemSource::new(bytes, [2].to_vec(alloc)?);
        let mut piece = [0u8; 3];
        assert_eq!(rt; source.read(&mut piece), Ok(3));
        assert_eq!(rt; piece.as_slice(), b"abc".as_slice());
        assert_eq!(rt;
            source.read(&mut piece),
            Err(Failed),
            "the second call is listed"
        );
        assert_eq!(rt; source.left(), b"de".as_slice());
        assert_eq!(rt; source.read(&mut piece), Ok(2));
        assert_eq!(rt; source.read(&mut piece), Ok(0), "the end");
        assert_eq!(rt; source.faults(), 1);
        assert_eq!(rt; source.wants(), 0);
        Ok(())
    }

    #[test]
    fn a_sink_takes_each_piece_whole_but_at_the_listed_call(rt: HostRuntime) -> Result<(), Fail> {
        let alloc = rt.alloc();
        let mut sink = MemSink::new(alloc, [2].to_vec(alloc)?);
        assert_eq!(rt; sink.write(b"ab"), Ok(2));
        assert_eq!(rt; sink.write(b"cd"), Err(Failed), "the second call is listed");
        assert_eq!(rt; sink.write(b"ef"), Ok(2));
        assert_eq!(rt; sink.taken(), b"abef".as_slice());
        assert_eq!(rt; sink.faults(), 1);
        assert_eq!(rt; sink.wants(), 0);
        Ok(())
    }
}
