ghost use Rattle.std.specs.Prelude.{◌≡◌, ◌↔◌, IsTrue, IfNone, IfSome, IfOk, OnOk};
ghost use Rattle.pb_keys.specs.Key.{IsKey, suffix_start, prefix_of, suffix_of, is_before};

use super::Bytes;
use std::alloc::{AllocError, Global};
use std::cmp::Ordering;
use std::marker::Model;

/// The longest key, in bytes.
pub const MAX_KEY: usize = 1024;

/// The longest value, in bytes.
pub const MAX_VALUE: usize = 65_536;

/// The byte with which a suffix begins.
pub(crate) const AT: u8 = b'@';

/// A key: 1 to 1,024 bytes that don't begin with '@'.
///
/// Its prefix ends before the first '@', where its suffix begins. Keys are ordered by prefix and then by suffix, each as
/// bytes, so `a@9` is before `a!`. Contracts see a key as its bytes: docs/MODEL.md, "Keys".
#[derive(Debug, Drop)]
pub struct Key {
    bytes: Bytes,
    split: usize,
}

/// Why there is no key.
#[derive(Clone, Copy, Debug, PartialEq, Eq, thiserror::Error)]
pub enum KeyError {
    #[error("a key has 1 to 1,024 bytes and doesn't begin with '@'")]
    BadKey,
    #[error("out of memory")]
    NoMemory,
}

impl From<AllocError> for KeyError {
    ghost use Rattle.std.specs.Prelude.{◌≡◌};
    ghost use Rattle.pb_keys.specs.declared.key.KeyError.TheVariants.{NoMemory};

    ghost from_gives = { λ _ error. error ≡ NoMemory };

    fn from(_error: AllocError) -> KeyError {
        KeyError::NoMemory
    }
}

impl Model for Key {
    ghost use Rattle.std.specs.Prelude.{ℕ, List};

    ghost Value = { List ℕ };

    ghost use Rattle.pb_keys.specs.Key.{IsSplitKey};

    ghost view = { λ k. k.bytes };

    ghost invariant = { λ k. IsSplitKey k.bytes k.split };
}

impl Key {
    /// The key of these bytes, in the time of one pass over them.
    pub fn new(alloc: Global, bytes: &[u8]) -> Result<Key, KeyError>
        ensures ok { IfOk result (λ key. key ≡ bytes.now) }
        ensures in_form { OnOk result (IsKey bytes.now) }
        ensures bad { (result ≡ Err KeyError.BadKey) ↔ ¬ (IsKey bytes.now) }
    {
        if !is_key(bytes) {
            return Err(KeyError::BadKey);
        }
        let split = split_of(bytes);
        let bytes = Bytes::new(alloc, bytes)?;
        Ok(Key { bytes, split })
    }

    /// The key of these bytes, or None where they are none.
    pub fn read(alloc: Global, bytes: &[u8]) -> Result<Option<Key>, AllocError>
        ensures some { IfOk result (λ found. IfSome found (λ key. key ≡ bytes.now)) }
        ensures in_form { IfOk result (λ found. IfSome found (λ _. IsKey bytes.now)) }
        ensures none { (result ≡ Ok None) ↔ ¬ (IsKey bytes.now) }
    {
        match Key::new(alloc, bytes) {
            Ok(key) => Ok(Some(key)),
            Err(KeyError::BadKey) => Ok(None),
            Err(KeyError::NoMemory) => Err(AllocError),
        }
    }

    /// Another value of the same key.
    pub fn copy(&self, alloc: Global) -> Result<Key, AllocError>
        ensures ok { IfOk result (λ key. key ≡ self.now) }
    {
        let bytes = self.bytes.copy(alloc)?;
        Ok(Key {
            bytes,
            split: self.split,
        })
    }

    /// The bytes before the first '@'.
    pub fn prefix(&self) -> &[u8]
        ensures value { result.now ≡ prefix_of self.now }
        ensures in_form { IsKey self.now }
    {
        &self.bytes.as_slice()[..self.split]
    }

    /// The bytes from the first '@' on; none where there is no '@'.
    #[tactic(auto, using(crate::proofs::KeyFacts::suffix_start_within))]
    pub fn suffix(&self) -> &[u8]
        ensures { result.now ≡ suffix_of self.now }
    {
        &self.bytes.as_slice()[self.split..]
    }

    /// All bytes: the prefix, then the suffix.
    pub fn as_bytes(&self) -> &[u8]
        ensures value { result.now ≡ self.now }
        ensures in_form { IsKey self.now }
    {
        self.bytes.as_slice()
    }

    /// Whether the key is below the one with these parts.
    #[tactic(auto, using(crate::proofs::OrderFacts::compares))]
    pub fn is_below(&self, prefix: &[u8], suffix: &[u8]) -> bool
        ensures { result ≡ is_before prefix.now suffix.now self.now }
    {
        match self.prefix().cmp(&prefix) {
            Ordering::Less => true,
            Ordering::Equal => self.suffix() < suffix,
            Ordering::Greater => false,
        }
    }
}

fn is_key(bytes: &[u8]) -> bool
    ensures { IsTrue result ↔ IsKey bytes.now }
{
    !bytes.is_empty() && bytes.len() <= MAX_KEY && bytes[0] != AT
}

fn split_of(bytes: &[u8]) -> usize
    ensures { result ≡ suffix_start bytes.now }
{
    for (at, byte) in bytes.iter().enumerate() {
        if *byte == AT {
            return at;
        }
    }
    bytes.len()
}

impl Ord for Key {
    ghost use Rattle.pb_keys.specs.Key.{key_cmp};
    ghost use Rattle.pb_keys.specs.KeyLaws.{key_cmp_total, key_cmp_matches_eq};
    ghost use Rattle.std.specs.Prelude.{refl};

    ghost cmp = { key_cmp };

    ghost total = { key_cmp_total };

    ghost matches_partial_cmp = { λ x y. refl };

    ghost matches_eq = { key_cmp_matches_eq };

    #[tactic(auto, unfolding(crate::specs::Key::key_cmp))]
    fn cmp(&self, other: &Key) -> Ordering {
        self.prefix()
            .cmp(&other.prefix())
            .then_with(|| self.suffix().cmp(&other.suffix()))
    }
}

impl PartialOrd for Key {
    ghost use Rattle.pb_keys.specs.Key.{key_cmp};
    ghost use Rattle.pb_keys.specs.KeyLaws.{key_po};
    ghost use Rattle.std.specs.Ordering.{as_partial_cmp};

    ghost partial_cmp = { as_partial_cmp key_cmp };

    ghost laws = { key_po };

    fn partial_cmp(&self, other: &Key) -> Option<Ordering> {
        Some(self.cmp(other))
    }
}

impl PartialEq for Key {
    ghost use Rattle.std.specs.Prelude.{nat_eq};
    ghost use Rattle.std.specs.Cmp.{partial_equiv_from_equiv};
    ghost use Rattle.std.specs.Cmp.Lexicographic.{pointwise, nat_list_eq_equiv};

    ghost eq = { pointwise nat_eq };

    ghost laws = { partial_equiv_from_equiv nat_list_eq_equiv };

    fn eq(&self, other: &Key) -> bool {
        self.as_bytes() == other.as_bytes()
    }
}

impl Eq for Key {
    ghost use Rattle.std.specs.Cmp.Lexicographic.{nat_list_eq_equiv};

    ghost laws = { nat_list_eq_equiv };
}
