ghost use Rattle.std.specs.Prelude.{◌≡◌, ◌↔◌, ℕ, List, IfSome, IfNone};
ghost use Rattle.pb_keys.specs.Key.{IsKey};
ghost use Rattle.pb_keys.specs.View.{IsMapping};
ghost use Rattle.pb_rows.specs.Viewed.{mapped_key};
ghost use Rattle.pb_synth.specs.KeyParts.{HasParts, IsMapped};

use super::Wanted;
use pb_keys::{Key, View};

/// Which keys the view maps to this one; None exactly where there are none. It takes no memory: both parts are the key's.
///
/// A key equal to the view's prefix, one that doesn't begin with it, and, where the view has a suffix, one with another
/// suffix, has no key behind it.
pub fn wanted<'a>(view: &View, key: &'a Key) -> Option<Wanted<'a>>
    requires { IsMapping view.now }
    ensures found { IfSome result (λ parts. (k : List ℕ) → IsKey k → (mapped_key view.now k ≡ key.now) ↔ HasParts parts k) }
    ensures some { IfSome result (λ _. IsMapped view.now key.now) }
    ensures none { IfNone result (¬ (IsMapped view.now key.now)) }
{
    let suffix = view.suffix.as_slice();
    let Some(prefix) = key.prefix().strip_prefix(view.prefix.as_slice()) else {
        return None;
    };
    if prefix.is_empty() {
        return None;
    }
    if suffix.is_empty() {
        return Some(Wanted {
            prefix,
            suffix: Some(key.suffix()),
        });
    }
    if key.suffix() == suffix {
        return Some(Wanted {
            prefix,
            suffix: None,
        });
    }
    None
}
