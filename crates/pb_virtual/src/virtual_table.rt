ghost use Rattle.std.specs.Prelude.{◌≡◌, IfOk, IfSome, IfNone};
ghost use Rattle.pb_keys.specs.View.{IsView};
ghost use Rattle.pb_rows.specs.Layer.{KeyLayer};
ghost use Rattle.pb_rows.specs.Viewed.{plain_view, viewed};
ghost use Rattle.pb_virtual.specs.Shown.{IsShown, IsViewable};

use super::bounds::bounded;
use pb_keys::View;
use pb_rows::Layer;
use pb_table::read_table;
use std::alloc::{AllocError, Global};
use std::marker::Model;

/// A table over bytes that other tables may show too, seen by contracts as its view. A physical table's view is its bounds.
#[derive(Debug, Drop)]
pub struct VirtualTable {
    view: View,
}

impl Model for VirtualTable {
    ghost use Rattle.pb_keys.specs.View.{KeyView};

    ghost Value = { KeyView };

    ghost view = { λ t. t.view };
}

impl VirtualTable {
    /// The table with this view. It takes no memory: who reads a table of a version hands in a copy of its view.
    pub fn new(view: View) -> VirtualTable
        ensures { result ≡ view }
    {
        VirtualTable { view }
    }

    /// What the view shows of the layer that these bytes spell; None where they are no table, or one that breaks a limit
    /// through the view (docs/MODEL.md, "Views"). A layer of which the bounds leave nothing is the empty layer.
    ///
    /// It takes time linear in the bytes. The answer keeps nothing of them, and no more rows than they have. After want of
    /// memory everything is as before.
    pub fn layer(&self, alloc: Global, bytes: &[u8]) -> Result<Option<Layer>, AllocError>
        requires in_form { IsView self.now }
        requires plain { self.now ≡ plain_view self.now.bounds }
        ensures some { IfOk result (λ found. IfSome found (IsShown self.now bytes.now)) }
        ensures none { IfOk result (λ found. IfNone found ((behind : KeyLayer) → IsViewable self.now bytes.now behind → ⊥)) }

        // The same of a layer that the caller knows.
        ensures exact { IfOk result (λ found. (behind : KeyLayer) → IsViewable self.now bytes.now behind → found ≡ Some (viewed self.now behind)) }
    {
        let Some(layer) = read_table(alloc, bytes)? else {
            return Ok(None);
        };
        let shown = bounded(alloc, layer, &self.view.bounds)?;
        Ok(Some(shown))
    }
}
