use std::alloc::{AllocError, Global};

/// Numbers that look drawn, for tests: the same for the same seed.
#[derive(Drop)]
pub struct Draws {
    state: u32,
}

impl Draws {
    pub fn new(seed: u32) -> Draws {
        Draws { state: seed }
    }

    /// A number below `n`, 0 where `n` is 0.
    pub fn below(&mut self, n: u32) -> u32 {
        self.state = self
            .state
            .wrapping_mul(1_664_525)
            .wrapping_add(1_013_904_223);
        if n == 0 {
            return 0;
        }
        self.state / 65_536 % n
    }

    /// So many bytes.
    pub fn bytes(&mut self, alloc: Global, count: u32) -> Result<Vec<u8>, AllocError> {
        let mut bytes = Vec::new(alloc);
        for _ in 0..count {
            bytes.push((self.below(256) % 256) as u8)?;
        }
        Ok(bytes)
    }

    /// About every sixth of the first `last` call numbers.
    pub fn calls(&mut self, alloc: Global, last: u64) -> Result<Vec<u64>, AllocError> {
        let mut calls = Vec::new(alloc);
        for call in 1..=last {
            if self.below(6) == 0 {
                calls.push(call)?;
            }
        }
        Ok(calls)
    }
}
