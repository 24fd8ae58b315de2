ghost use Rattle.std.specs.Prelude.{◌≡◌, ◌≤◌, length};
ghost use Rattle.std.specs.Ordering.{is_lt};
ghost use Rattle.pb_keys.specs.Key.{is_key, suffix_start, is_before, key_cmp};

use pb_keys::MAX_KEY;
use std::cmp::Ordering;

/// With this a suffix begins.
const AT: u8 = b'@';

pub(crate) fn is_key(bytes: &[u8]) -> bool
    ensures { result ≡ is_key bytes.now }
{
    !bytes.is_empty() && bytes.len() <= MAX_KEY && bytes[0] != AT
}

/// Where the suffix begins: at the first '@', or at the end.
pub(crate) fn split_of(bytes: &[u8]) -> usize
    ensures start { result ≡ suffix_start bytes.now }
    ensures within { result ≤ length bytes.now }
{
    for (at, byte) in bytes.iter().enumerate() {
        if *byte == AT {
            return at;
        }
    }
    bytes.len()
}

/// Whether the key is below the one with these parts.
pub(crate) fn is_below(key: &[u8], prefix: &[u8], suffix: &[u8]) -> bool
    ensures { result ≡ is_before prefix.now suffix.now key.now }
{
    is_split_below(key, split_of(key), prefix, suffix)
}

/// The same of a key whose suffix begins there.
#[tactic(auto, using(pb_keys::proofs::OrderFacts::compares, pb_keys::proofs::KeyFacts::suffix_start_within))]
pub(crate) fn is_split_below(key: &[u8], split: usize, prefix: &[u8], suffix: &[u8]) -> bool
    requires { split ≡ suffix_start key.now }
    ensures { result ≡ is_before prefix.now suffix.now key.now }
{
    let (own_prefix, own_suffix) = key.split_at(split);
    match own_prefix.cmp(&prefix) {
        Ordering::Less => true,
        Ordering::Equal => own_suffix < suffix,
        Ordering::Greater => false,
    }
}

/// Whether a key is above the one before it.
#[tactic(auto, unfolding(pb_keys::specs::Key::key_cmp))]
pub(crate) fn is_above(before: &[u8], key: &[u8]) -> bool
    ensures { result ≡ is_lt (key_cmp before.now key.now) }
{
    let (prefix, suffix) = key.split_at(split_of(key));
    is_below(before, prefix, suffix)
}
