ghost use Rattle.std.specs.Prelude.{◌≡◌, IfOk};
ghost use Rattle.pb_keys.specs.View.{IsView};
ghost use Rattle.pb_rows.specs.Viewed.{viewed, MapsWithin};

use super::dels::{parts_of, shown_dels};
use super::rows::{held_rows, mapped_rows};
use pb_keys::View;
use pb_rows::Layer;
use std::alloc::{AllocError, Global};

/// What the view shows of the layer. It takes the time of two searches by halving and of what is shown, and memory for
/// that alone. `maps_within` tells whether it may be asked.
pub fn view_layer(alloc: Global, view: &View, layer: &Layer) -> Result<Layer, AllocError>
    requires view { IsView view.now }
    requires within { MapsWithin view.now layer.now }
    ensures ok { IfOk result (λ shown. shown ≡ viewed view.now layer.now) }
{
    let dels = parts_of(alloc, view, shown_dels(view, layer.dels()))?;
    let rows = mapped_rows(alloc, view, held_rows(view, layer.rows()))?;
    Ok(Layer::from_parts(dels, rows))
}
