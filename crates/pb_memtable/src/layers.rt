ghost use Rattle.std.specs.Prelude.{◌≡◌, All};
ghost use Rattle.pb_rows.specs.Layer.{AreApart, IsShortRow, Rise, layer_of};

use pb_keys::Span;
use pb_rows::{Layer, Row, RowsError};
use std::alloc::Global;

/// The layer of spans and rows that are known to be in form. It takes no memory.
pub(crate) fn layer_of(alloc: Global, dels: Vec<Span>, rows: Vec<Row>) -> Layer
    requires apart { AreApart dels.items }
    requires rise { Rise rows.items }
    requires short { All IsShortRow rows.items }
    ensures { result ≡ layer_of dels.items rows.items }
{
    match Layer::new(alloc, dels, rows) {
        Ok(layer) => layer,
        Err(_) => unreachable!(),
    }
}
