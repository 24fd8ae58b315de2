ghost use Rattle.std.specs.Prelude.{◌≡◌, ◌≤◌, IfOk, length};
ghost use Rattle.pb_keys.specs.Held.{held_bytes, IsHeld};

use std::alloc::{AllocError, Global};
use std::marker::Model;

/// The most bytes that stand in the value itself. With a length and a tag they fill two machine words.
const ROOM: usize = 14;

/// Some bytes, which contracts see as their list.
///
/// Up to 14 bytes stand in the value itself: keys and values are mostly short, and a block for each would cost more memory
/// and time than all else.
#[derive(Debug, Drop)]
pub struct Bytes {
    held: Held,
}

/// Where the bytes stand.
#[derive(Debug, Drop)]
pub(crate) enum Held {
    /// Here: the first ones of the room, so many.
    Here(u8, [u8; ROOM]),
    Apart(Box<Vec<u8>>),
}

impl Model for Bytes {
    ghost use Rattle.std.specs.Prelude.{ℕ, List};

    ghost Value = { List ℕ };

    ghost use Rattle.pb_keys.specs.Held.{held_bytes, IsHeld};

    ghost view = { λ b. held_bytes b.held };

    ghost invariant = { λ b. IsHeld b.held };
}

impl Bytes {
    /// A copy of these bytes.
    #[inline(always)]
    pub fn new(alloc: Global, from: &[u8]) -> Result<Bytes, AllocError>
        ensures ok { IfOk result (λ bytes. bytes ≡ from.now) }
    {
        if from.len() <= ROOM {
            return Ok(Bytes {
                held: held_here(from),
            });
        }
        let apart = apart_of(alloc, from)?;
        Ok(Bytes {
            held: Held::Apart(apart),
        })
    }

    /// These bytes. Above 14 none is copied: the block stays theirs.
    pub fn from_vec(alloc: Global, from: Vec<u8>) -> Result<Bytes, AllocError>
        ensures ok { IfOk result (λ bytes. bytes ≡ from.items) }
    {
        if from.len() <= ROOM {
            return Ok(Bytes {
                held: held_here(from.as_slice()),
            });
        }
        let apart = Box::new(alloc, from)?;
        Ok(Bytes {
            held: Held::Apart(apart),
        })
    }

    /// The bytes, to be changed. Above 14 none is copied.
    pub fn into_vec(self, alloc: Global) -> Result<Vec<u8>, AllocError>
        ensures ok { IfOk result (λ bytes. bytes.items ≡ self) }
    {
        let Bytes { held } = self;
        match held {
            Held::Here(len, bytes) => {
                let bytes = Vec::from_slice(alloc, &bytes[..len as usize])?;
                Ok(bytes)
            }
            Held::Apart(bytes) => Ok(Box::into_inner(bytes)),
        }
    }

    /// Another value of the same bytes.
    pub fn copy(&self, alloc: Global) -> Result<Bytes, AllocError>
        ensures ok { IfOk result (λ bytes. bytes ≡ self.now) }
    {
        let held = match &self.held {
            Held::Here(len, bytes) => Held::Here(*len, *bytes),
            Held::Apart(bytes) => Held::Apart(apart_of(alloc, bytes.as_slice())?),
        };
        Ok(Bytes { held })
    }

    /// The bytes, in order.
    pub fn as_slice(&self) -> &[u8]
        ensures { result.now ≡ self.now }
    {
        match &self.held {
            Held::Here(len, bytes) => &bytes[..*len as usize],
            Held::Apart(bytes) => bytes.as_slice(),
        }
    }
}

#[inline(always)]
fn held_here(from: &[u8]) -> Held
    requires { length from.now ≤ 14 }
    ensures bytes { held_bytes result ≡ from.now }
    ensures held { IsHeld result }
{
    let mut bytes = [0; ROOM];
    bytes[..from.len()].copy_from_slice(from);
    Held::Here(from.len() as u8, bytes)
}

/// A copy of the bytes in a block of its own.
fn apart_of(alloc: Global, from: &[u8]) -> Result<Box<Vec<u8>>, AllocError>
    ensures ok { IfOk result (λ apart. apart.value.items ≡ from.now) }
{
    let all = Vec::from_slice(alloc, from)?;
    let apart = Box::new(alloc, all)?;
    Ok(apart)
}

impl PartialEq for Bytes {
    ghost use Rattle.std.specs.Prelude.{nat_eq};
    ghost use Rattle.std.specs.Cmp.{partial_equiv_from_equiv};
    ghost use Rattle.std.specs.Cmp.Lexicographic.{pointwise, nat_list_eq_equiv};

    ghost eq = { pointwise nat_eq };

    ghost laws = { partial_equiv_from_equiv nat_list_eq_equiv };

    fn eq(&self, other: &Bytes) -> bool {
        self.as_slice() == other.as_slice()
    }
}

impl Eq for Bytes {
    ghost use Rattle.std.specs.Cmp.Lexicographic.{nat_list_eq_equiv};

    ghost laws = { nat_list_eq_equiv };
}
