ghost use Rattle.std.specs.Prelude.{◌≡◌, IfOk, Some};
ghost use Rattle.pb_compact.specs.Outputs.{cut_points as cut_points_of, outputs_of};
ghost use Rattle.pb_rows.specs.Hull.{hull_of};

use super::cut::take_output;
use super::points::cut_points;
use pb_keys::{Bytes, List, Span};
use pb_rows::{Layer, Layers};
use std::alloc::{AllocError, Global};
use std::collections::VecDeque;

/// The layer cut into outputs, in order: each but the last ends at the first prefix behind the row by which the keys and
/// values in it have 262,144 bytes (docs/FORMATS.md, "Outputs of a compaction"). The empty layer gives none.
///
/// Rows and deletions are moved and not copied, but for a deletion that is cut. It takes one pass over both.
pub fn outputs(alloc: Global, layer: Layer) -> Result<Layers, AllocError>
    ensures ok { IfOk result (λ outputs. outputs ≡ outputs_of layer) }
{
    let Some(hull) = layer.hull(alloc)? else {
        return Ok(List::from_vec(Vec::new(alloc)));
    };
    let points = cut_points(alloc, layer.rows())?;
    let outputs = cut_at(alloc, layer, points.as_slice(), &hull)?;
    Ok(List::from_vec(outputs))
}

/// The layer cut at its points.
fn cut_at(
    alloc: Global,
    layer: Layer,
    points: &[Bytes],
    hull: &Span,
) -> Result<Vec<Layer>, AllocError>
    requires points { points.now ≡ cut_points_of layer.rows }
    requires hull { hull_of layer ≡ Some hull.now }
    ensures ok { IfOk result (λ outputs. outputs.items ≡ outputs_of layer) }
{
    let (dels, rows) = layer.into_parts();
    let mut dels = VecDeque::from(dels);
    let mut rows = VecDeque::from(rows);
    let mut outputs = Vec::new(alloc);
    for point in points {
        let output = take_output(alloc, &mut dels, &mut rows, point.as_slice())?;
        outputs.push(output)?;
    }
    let last = take_output(alloc, &mut dels, &mut rows, hull.hi())?;
    outputs.push(last)?;
    Ok(outputs)
}
