ghost use Rattle.std.specs.Prelude.{◌≡◌};
ghost use Rattle.pb_manifest.specs.Numbers.{reservation};

use pb_edit::{Backings, Deletions, Edit, Numbers, Physicals, Virtuals};
use std::alloc::Global;

/// How many numbers one edit reserves.
pub const BLOCK: u64 = 64;

/// The edit that reserves the numbers below `next`. It takes no memory.
pub(crate) fn reserve_below(alloc: Global, next: u64) -> Edit
    ensures { result ≡ reservation next }
{
    Edit {
        accepted: None,
        next: Some(next),
        log: None,
        flushed: None,
        format: None,
        deleted: Deletions::from_vec(Vec::new(alloc)),
        physical: Physicals::from_vec(Vec::new(alloc)),
        virtuals: Virtuals::from_vec(Vec::new(alloc)),
        created: Backings::from_vec(Vec::new(alloc)),
        removed: Numbers::from_vec(Vec::new(alloc)),
    }
}
