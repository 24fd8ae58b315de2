ghost use Rattle.std.specs.Prelude.{◌≡◌, IfOk};
ghost use Rattle.std.specs.List.{filter};
ghost use Rattle.pb_compact.specs.Outputs.{has_value, values_alone};

use pb_rows::{Layer, Row};
use std::alloc::{AllocError, Global};

/// The rows of the layer that have a value, without its deletions and deleted rows: what stays where nothing lies below. The
/// rows are moved and not copied. It takes no memory.
pub fn without_deletions(alloc: Global, layer: Layer) -> Result<Layer, AllocError>
    ensures ok { IfOk result (λ values. values ≡ values_alone layer) }
{
    let (_, mut rows) = layer.into_parts();
    keep_values(&mut rows);
    Ok(Layer::from_parts(Vec::new(alloc), rows))
}

fn keep_values(rows: &mut Vec<Row>)
    ensures { rows.new.items ≡ filter has_value rows.old.items }
{
    rows.retain(|row| row.value.is_some());
}
