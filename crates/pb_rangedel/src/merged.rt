ghost use Rattle.std.specs.Prelude.{◌≡◌, IfOk};
ghost use Rattle.pb_rows.specs.Layer.{IsLayer};
ghost use Rattle.pb_rows.specs.Over.{over as over_of};

use super::rows::{merge, merge_owned};
use super::unite::union;
use pb_rows::Layer;
use std::alloc::{AllocError, Global};

/// The newer layer over the older one, in one pass over both.
///
/// It has all deletions of both, the newer rows, and each older row whose key is neither in a newer deletion nor among the
/// newer rows. Applied to a map it does what the older layer and then the newer one do: docs/MODEL.md, "Layers".
pub fn over(alloc: Global, newer: &Layer, older: &Layer) -> Result<Layer, AllocError>
    ensures ok { IfOk result (λ layer. layer ≡ over_of newer.now older.now) }
{
    let dels = union(alloc, newer.dels(), older.dels())?;
    let rows = merge(alloc, newer.dels(), newer.rows(), older.rows())?;
    Ok(Layer::from_parts(dels, rows))
}

/// The newer layer over the older one, as `over` has it, whose rows are moved and not copied.
pub fn over_owned(alloc: Global, newer: Layer, older: Layer) -> Result<Layer, AllocError>
    ensures ok { IfOk result (λ layer. layer ≡ over_of newer older) }
    ensures in_form { IsLayer newer × IsLayer older }
{
    let (new_dels, new_rows) = newer.into_parts();
    let (old_dels, old_rows) = older.into_parts();
    let dels = union(alloc, new_dels.as_slice(), old_dels.as_slice())?;
    let rows = merge_owned(alloc, new_dels.as_slice(), new_rows, old_rows)?;
    Ok(Layer::from_parts(dels, rows))
}
