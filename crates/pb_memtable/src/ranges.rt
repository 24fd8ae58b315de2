ghost use Rattle.std.specs.Prelude.{◌≡◌, ◌≤◌, ◌++◌, take, drop, vec_len, vec_capacity};

/// Removes the elements from one place up to another. It moves those behind them, and takes no memory.
pub(crate) fn remove_range<T: Drop>(list: &mut Vec<T>, from: usize, to: usize)
    requires rises { from ≤ to }
    requires within { to ≤ vec_len list.old }
    ensures items { list.new.items ≡ take from list.old.items ++ drop to list.old.items }
    ensures len { vec_len list.new ≤ vec_len list.old }
    ensures capacity { vec_capacity list.new ≡ vec_capacity list.old }
{
    let count = to - from;
    let rest = list.len() - count;
    let behind = &mut list.as_mut_slice()[from..];
    behind.rotate_left(count);
    list.truncate(rest);
}
