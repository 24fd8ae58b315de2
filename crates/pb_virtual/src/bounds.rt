ghost use Rattle.std.specs.Prelude.{◌≡◌, IfOk};
ghost use Rattle.std.specs.List.{filter};
ghost use Rattle.pb_keys.specs.Span.{IsSpan, holds_key};
ghost use Rattle.pb_rows.specs.Viewed.{bounded as bounded_of};

use pb_keys::Span;
use pb_rangedel::cut;
use pb_rows::{Layer, Row};
use std::alloc::{AllocError, Global};

/// The parts of the layer's deletions within the bounds, and the rows that they hold, which are moved and not copied.
pub(crate) fn bounded(alloc: Global, layer: Layer, bounds: &Span) -> Result<Layer, AllocError>
    requires { IsSpan bounds.now }
    ensures ok { IfOk result (λ shown. shown ≡ bounded_of bounds.now layer) }
{
    let (dels, mut rows) = layer.into_parts();
    let dels = cut(alloc, dels.as_slice(), bounds)?;
    keep_held(&mut rows, bounds);
    Ok(Layer::from_parts(dels, rows))
}

/// Leaves out the rows that the bounds don't hold. It takes no memory.
fn keep_held(rows: &mut Vec<Row>, bounds: &Span)
    ensures { rows.new.items ≡ filter (λ row. holds_key bounds.now row.key) rows.old.items }
{
    rows.retain(|row| bounds.contains(&row.key));
}
