ghost use Rattle.std.specs.Prelude.{◌≡◌, [], false};

use pb_devices::{Failed, Sink, Source};
use std::io::{Read, Write};

/// A stream of std to read. It tells nothing of what is left.
#[derive(Drop)]
pub struct HostIn<R> {
    from: R,
    faults: u64,
}

impl<R> HostIn<R> {
    /// A source of what a stream gives, with no fault yet.
    pub fn new(from: R) -> HostIn<R>
        ensures { result.faults ≡ 0 }
    {
        HostIn { from, faults: 0 }
    }
}

impl<R: Read> Source for HostIn<R> {
    ghost told = { false };

    ghost left = { λ _. [] };

    ghost fault_count = { λ s. s.faults };

    fn read(&mut self, into: &mut [u8]) -> Result<usize, Failed> {
        let Ok(count) = self.from.read(into) else {
            self.faults = self.faults.saturating_add(1);
            return Err(Failed);
        };
        Ok(count)
    }

    fn faults(&self) -> u64 {
        self.faults
    }
}

/// A stream of std to write. It tells nothing of what was taken.
#[derive(Drop)]
pub struct HostOut<W> {
    to: W,
    faults: u64,
}

impl<W> HostOut<W> {
    /// A sink into a stream, with no fault yet.
    pub fn new(to: W) -> HostOut<W>
        ensures { result.faults ≡ 0 }
    {
        HostOut { to, faults: 0 }
    }
}

impl<W: Write> Sink for HostOut<W> {
    ghost told = { false };

    ghost taken = { λ _. [] };

    ghost fault_count = { λ s. s.faults };

    /// A write that takes nothing of a piece has failed, too.
    fn write(&mut self, bytes: &[u8]) -> Result<usize, Failed> {
        match self.to.write(bytes) {
            Ok(count) if 0 < count || bytes.is_empty() => Ok(count),
            _ => {
                self.faults = self.faults.saturating_add(1);
                Err(Failed)
            }
        }
    }

    fn faults(&self) -> u64 {
        self.faults
    }
}

#[cfg(test)]
mod tests {
    use super::*;
    use std::test::Fail;

    #[test]
    fn bytes_are_read_to_their_end(rt: HostRuntime) -> Result<(), Fail> {
        let mut source = HostIn::new(b"abc".as_slice());
        let mut piece = [0u8; 2];
        assert_eq!(rt; source.read(&mut piece), Ok(2));
        assert_eq!(rt; piece, *b"ab");
        assert_eq!(rt; source.read(&mut piece), Ok(1));
        assert_eq!(rt; piece, *b"cb");
        assert_eq!(rt; source.read(&mut piece), Ok(0));
        assert_eq!(rt; source.faults(), 0);
        Ok(())
    }

    #[test]
    fn a_write_that_takes_nothing_is_a_fault(rt: HostRuntime) -> Result<(), Fail> {
        let mut room = [0u8; 3];
        let mut sink = HostOut::new(room.as_mut_slice());
        assert_eq!(rt; sink.write(b"ab"), Ok(2));
        assert_eq!(rt; sink.write(b"cd"), Ok(1));
        assert_eq!(rt; sink.write(b"d"), Err(Failed));
        assert_eq!(rt; sink.write(b""), Ok(0));
        assert_eq!(rt; sink.faults(), 1);
        Ok(())
    }
}
