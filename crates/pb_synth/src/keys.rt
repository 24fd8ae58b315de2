ghost use Rattle.std.specs.Prelude.{◌≡◌, ◌↔◌, ◌++◌, IfOk, OnOk, IfSome, None, Ok, length};
ghost use Rattle.pb_keys.specs.Key.{IsKey, IsKeyLength, prefix_of};
ghost use Rattle.pb_keys.specs.View.{IsMapping};
ghost use Rattle.pb_rows.specs.Viewed.{mapped_key, with_suffix};

use pb_keys::{Key, MAX_KEY, View};
use std::alloc::{AllocError, Global};

/// The key that the view makes of this one: the view's prefix before it, and the view's suffix, if it has one, in the
/// place of its own. None exactly where that has more than 1,024 bytes, and then no memory is taken.
pub fn map_key(alloc: Global, view: &View, key: &Key) -> Result<Option<Key>, AllocError>
    requires { IsMapping view.now }
    ensures some { IfOk result (λ found. IfSome found (λ mapped. mapped ≡ mapped_key view.now key.now)) }
    ensures none { (result ≡ Ok None) ↔ ¬ (IsKeyLength (length (mapped_key view.now key.now))) }
{
    if mapped_len(view, key) > MAX_KEY {
        return Ok(None);
    }
    let mut bytes = Vec::new(alloc);
    let mapped = mapped_within(alloc, &mut bytes, view, key)?;
    Ok(Some(mapped))
}

/// The length of the key that the view makes of this one.
pub(crate) fn mapped_len(view: &View, key: &Key) -> usize
    requires { IsMapping view.now }
    ensures { result ≡ length (mapped_key view.now key.now) }
{
    view.prefix.as_slice().len() + key.prefix().len() + mapped_suffix(view, key).len()
}

/// The key that the view makes of this one, which is known to keep its limit; its bytes stand in the room first.
pub(crate) fn mapped_within(
    alloc: Global,
    room: &mut Vec<u8>,
    view: &View,
    key: &Key,
) -> Result<Key, AllocError>
    requires mapping { IsMapping view.now }
    requires within { IsKeyLength (length (mapped_key view.now key.now)) }
    ensures ok { IfOk result (λ mapped. mapped ≡ mapped_key view.now key.now) }
{
    put_mapped(room, view, key)?;
    match Key::read(alloc, room)? {
        Some(mapped) => Ok(mapped),
        None => unreachable!(),
    }
}

/// The bytes of the key that the view makes of this one, in the place of what stood in the room.
fn put_mapped(room: &mut Vec<u8>, view: &View, key: &Key) -> Result<(), AllocError>
    requires { IsMapping view.now }
    ensures ok { OnOk result (room.new.items ≡ mapped_key view.now key.now) }
    ensures in_form { IsKey key.now }
{
    let own = key.prefix();
    room.clear();
    room.extend_from_slice(view.prefix.as_slice())?;
    room.extend_from_slice(own)?;
    room.extend_from_slice(mapped_suffix(view, key))?;
    Ok(())
}

/// The suffix of the key that the view makes of this one: the view's, or the key's own where the view has none.
fn mapped_suffix<'a>(view: &'a View, key: &'a Key) -> &'a [u8]
    requires { IsMapping view.now }
    ensures whole { prefix_of key.now ++ result.now ≡ with_suffix view.now.suffix key.now }
    ensures within { IsKeyLength (length result.now) }
{
    // So the proof knows that the key is in form.
    let _bytes = key.as_bytes();
    let suffix = view.suffix.as_slice();
    if suffix.is_empty() {
        return key.suffix();
    }
    suffix
}
