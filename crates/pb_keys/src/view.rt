ghost use Rattle.std.specs.Prelude.{◌≡◌, IfOk};

use super::{Bytes, Span};
use std::alloc::{AllocError, Global};
use std::marker::Model;

/// What a table shows of the layer behind it: the part within the bounds, after the prefix was put before every key and
/// end, and the suffix, if there is one, in the place of every key's own. Prefix and suffix may be empty.
#[derive(Debug, Drop)]
pub struct View {
    pub bounds: Span,
    pub prefix: Bytes,
    pub suffix: Bytes,
}

impl Model for View {
    ghost use Rattle.pb_keys.specs.View.{KeyView};

    ghost Value = { KeyView };

    ghost view = { λ v. record { bounds = v.bounds; prefix = v.prefix; suffix = v.suffix } };
}

impl View {
    /// Another value of the same view.
    pub fn copy(&self, alloc: Global) -> Result<View, AllocError>
        ensures ok { IfOk result (λ copy. copy ≡ self.now) }
    {
        let bounds = self.bounds.copy(alloc)?;
        let prefix = self.prefix.copy(alloc)?;
        let suffix = self.suffix.copy(alloc)?;
        Ok(View {
            bounds,
            prefix,
            suffix,
        })
    }
}
