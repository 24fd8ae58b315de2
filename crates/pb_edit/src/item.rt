ghost use Rattle.std.specs.Prelude.{◌≡◌, ◌<◌, ◌≤◌, ◌++◌, IfOk, IfSome, OnOk, length};
ghost use Rattle.std.specs.Option.{option_map};
ghost use Rattle.pb_edit.specs.Grammar.{items};
ghost use Rattle.pb_edit.specs.Reading.{Gives, all_at, content_from, content_behind, last_of};

use super::read::ReadError;
use std::alloc::{AllocError, Global};

/// An item of a kind of which an edit has a list.
pub(crate) trait Item: Sized {
    ghost use Rattle.std.specs.Prelude.{◌≡◌, ◌≤◌, ◌++◌, ℕ, List, IfOk, OnOk, length};
    ghost use Rattle.pb_edit.specs.Reading.{Gives, ItemKind};

    /// How such items are read.
    ghost form: { ItemKind Self };

    /// What stands behind the kind's byte.
    ghost content: { Self → List ℕ };

    /// The kind's byte.
    fn kind() -> u8
        ensures { result ≡ form.byte };

    /// The item whose content begins these bytes, and what stands behind it.
    fn read(alloc: Global, from: &[u8]) -> Result<(Self, &[u8]), ReadError>
        ensures exact { Gives (λ read. (read.0, read.1.now)) result (form.content_at from.now) }
        ensures shorter { IfOk result (λ read. length read.1.now ≤ length from.now) };

    /// Whether it stands below the other.
    fn is_below(&self, other: &Self) -> bool
        ensures { result ≡ form.is_below self.now other.now };

    /// Appends the content.
    fn put(&self, alloc: Global, out: &mut Vec<u8>) -> Result<(), AllocError>
        ensures ok { OnOk result (out.new.items ≡ out.old.items ++ content self.now) };
}

/// The items of a kind that begin these bytes, and what stands behind them.
pub(crate) fn read_items<T: Item + Drop>(
    alloc: Global,
    from: &[u8],
) -> Result<(Vec<T>, &[u8]), ReadError>
    ensures { Gives (λ read. (read.0.items, read.1.now)) result (all_at T.form from.now) }
{
    let mut items: Vec<T> = Vec::new(alloc);
    let mut rest = from;
    while let Some(content) = content_of::<T>(rest) {
        let (item, behind) = read_behind(alloc, items.as_slice(), content)?;
        items.push(item)?;
        rest = behind;
    }
    Ok((items, rest))
}

/// The content of the item of the kind that begins these bytes.
fn content_of<T: Item>(from: &[u8]) -> Option<&[u8]>
    ensures exact { option_map (λ content. content.now) result ≡ content_from T.form from.now }
    ensures shorter { IfSome result (λ content. length content.now < length from.now) }
{
    match from {
        [byte, rest @ ..] if *byte == T::kind() => Some(rest),
        _ => None,
    }
}

/// The item whose content begins these bytes and that stands above those before.
fn read_behind<'a, T: Item + Drop>(
    alloc: Global,
    before: &[T],
    from: &'a [u8],
) -> Result<(T, &'a [u8]), ReadError>
    ensures exact { Gives (λ read. (read.0, read.1.now)) result (content_behind T.form (last_of before.now) from.now) }
    ensures shorter { IfOk result (λ read. length read.1.now ≤ length from.now) }
{
    let (item, rest) = T::read(alloc, from)?;
    if let Some(last) = before.last()
        && !last.is_below(&item)
    {
        return Err(ReadError::Off);
    }
    Ok((item, rest))
}

/// Appends the items of a kind.
pub(crate) fn put_items<T: Item>(
    alloc: Global,
    out: &mut Vec<u8>,
    list: &[T],
) -> Result<(), AllocError>
    ensures ok { OnOk result (out.new.items ≡ out.old.items ++ items T.form.byte T.content list.now) }
{
    for item in list {
        out.push(T::kind())?;
        item.put(alloc, out)?;
    }
    Ok(())
}
