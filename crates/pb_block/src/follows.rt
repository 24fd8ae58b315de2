ghost use Rattle.std.specs.Prelude.{◌≡◌, ◌≤◌, ◌++◌, nat_eq, length, take};
ghost use Rattle.std.specs.List.{common_prefix_len};
ghost use Rattle.std.specs.Option.{option_map};
ghost use Rattle.std.specs.Ordering.{is_lt};
ghost use Rattle.pb_keys.specs.Key.{key_cmp};
ghost use Rattle.pb_keys.specs.Order.{is_below};
ghost use Rattle.pb_block.specs.Blocks.{shared_at};
ghost use Rattle.pb_block.specs.Reading.{is_short, may_follow};

use crate::entry::Entry;
use crate::key_room::KeyRoom;
use crate::order::is_above;
use pb_keys::MAX_VALUE;

/// Whether the entry of this number goes on behind a key: its own is above that and shares as much as it has to, and its value is
/// short. It takes the time of what both keys don't share.
pub(crate) fn may_follow<const R: usize>(number: usize, before: &KeyRoom, entry: &Entry<'_>) -> bool
    requires distance { 1 ≤ R }
    requires shared { entry.now.shared ≤ length before.now }
    ensures { result ≡ may_follow R number before.now entry.now }
{
    rises(before, entry.shared, entry.unshared)
        && shares_all::<R>(number, before, entry.shared, entry.unshared)
        && is_short(entry.value)
}

/// Whether the key that begins with so many bytes of the one before is above it.
fn rises(before: &KeyRoom, shared: usize, unshared: &[u8]) -> bool
    requires { shared ≤ length before.now }
    ensures { result ≡ is_lt (key_cmp before.now (take shared before.now ++ unshared.now)) }
{
    let split = before.split();
    let key = before.as_slice();
    let (_, rest) = key.split_at(shared);
    if split < shared {
        return is_less(rest, unshared);
    }
    is_above(rest, unshared)
}

#[tactic(auto, using(pb_keys::proofs::OrderFacts::compares))]
fn is_less(a: &[u8], b: &[u8]) -> bool
    ensures { result ≡ is_below a.now b.now }
{
    a < b
}

/// Whether the entry of this number shares as much as it has to.
fn shares_all<const R: usize>(
    number: usize,
    before: &KeyRoom,
    shared: usize,
    unshared: &[u8],
) -> bool
    requires distance { 1 ≤ R }
    requires shared { shared ≤ length before.now }
    ensures { result ≡ nat_eq shared (shared_at R number before.now (take shared before.now ++ unshared.now)) }
{
    if number % R == 0 {
        return shared == 0;
    }
    shares_most(before, shared, unshared)
}

fn shares_most(before: &KeyRoom, shared: usize, unshared: &[u8]) -> bool
    requires { shared ≤ length before.now }
    ensures { result ≡ nat_eq shared (common_prefix_len nat_eq before.now (take shared before.now ++ unshared.now)) }
{
    let key = before.as_slice();
    let (_, rest) = key.split_at(shared);
    share_nothing(rest, unshared)
}

fn share_nothing(a: &[u8], b: &[u8]) -> bool
    ensures { result ≡ nat_eq (common_prefix_len nat_eq a.now b.now) 0 }
{
    if a.is_empty() {
        return true;
    }
    if b.is_empty() {
        return true;
    }
    a[0] != b[0]
}

pub(crate) fn is_short(value: Option<&[u8]>) -> bool
    ensures { result ≡ is_short (option_map (λ bytes. bytes.now) value.entry) }
{
    match value {
        None => true,
        Some(bytes) => bytes.len() <= MAX_VALUE,
    }
}
