ghost use Rattle.std.specs.Prelude.{◌≡◌, IfOk};

use super::{Bytes, Key, Span, View};
use std::alloc::{AllocError, Global};

/// Values of which there can be another one.
pub trait Copies: Drop + Sized {
    /// Another value of the same.
    fn copied(&self, alloc: Global) -> Result<Self, AllocError>
        ensures ok { IfOk result (λ copy. copy ≡ self.now) };
}

/// Another value of each, in order.
pub fn copy_all<T: Copies>(alloc: Global, items: &[T]) -> Result<Vec<T>, AllocError>
    ensures ok { IfOk result (λ copies. copies.items ≡ items.now) }
{
    let mut copies = Vec::with_capacity(alloc, items.len())?;
    for item in items {
        let copy = item.copied(alloc)?;
        copies.push(copy)?;
    }
    Ok(copies)
}

impl Copies for Bytes {
    fn copied(&self, alloc: Global) -> Result<Bytes, AllocError> {
        self.copy(alloc)
    }
}

impl Copies for Key {
    fn copied(&self, alloc: Global) -> Result<Key, AllocError> {
        self.copy(alloc)
    }
}

impl Copies for Span {
    fn copied(&self, alloc: Global) -> Result<Span, AllocError> {
        self.copy(alloc)
    }
}

impl Copies for View {
    fn copied(&self, alloc: Global) -> Result<View, AllocError> {
        self.copy(alloc)
    }
}
