ghost use Rattle.std.specs.Option.{option_to_list};
ghost use Rattle.std.specs.Prelude.{◌≡◌, ◌+◌, ◌*◌, ◌≤◌, List, ◌∷◌, ◌++◌, All, IfOk, OnOk, vec_len};
ghost use Rattle.pb_rows.specs.Layer.{KeyLayer, IsLayer};
ghost use Rattle.pb_rows.specs.Over.{over_all as over_all_of};

use super::merged::over_owned;
use pb_rows::{Layer, Layers};
use std::alloc::{AllocError, Global};

/// Layers put over one another, of which the first is the newest; of no layers the empty one.
///
/// Neighbours are put over one another pair by pair, so a row moves at most once for each doubling of the number of
/// layers: docs/MODEL.md, "Layers".
pub fn over_all(alloc: Global, newest_first: Layers) -> Result<Layer, AllocError>
    ensures ok { IfOk result (λ layer. layer ≡ over_all_of newest_first) }
{
    let mut layers = newest_first.into_vec();
    while layers.len() > 1 {
        layers = paired(alloc, layers)?;
    }
    Ok(only_of(alloc, layers))
}

/// Each two neighbours put over one another, and the last layer of an odd number.
fn paired(alloc: Global, layers: Vec<Layer>) -> Result<Vec<Layer>, AllocError>
    ensures same { IfOk result (λ pairs. over_all_of pairs.items ≡ over_all_of layers.items) }
    ensures fewer { IfOk result (λ pairs. 2 * vec_len pairs ≤ vec_len layers + 1) }
{
    let mut left = layers.into_iter();
    let mut pairs = Vec::new(alloc);
    while let Some(newer) = left.next() {
        let layer = over_next(alloc, newer, left.next())?;
        pairs.push(layer)?;
    }
    Ok(pairs)
}

/// The newer layer over the older one, if there is one.
fn over_next(alloc: Global, newer: Layer, older: Option<Layer>) -> Result<Layer, AllocError>
    ensures same { IfOk result (λ layer. (rest : List KeyLayer) → All IsLayer rest → over_all_of (layer ∷ rest) ≡ over_all_of (newer ∷ (option_to_list older ++ rest))) }
    ensures in_form { OnOk result (IsLayer newer × All IsLayer (option_to_list older)) }
{
    // So the proof knows in each arm that the layer is in form.
    let _dels = newer.dels();
    match older {
        Some(older) => {
            let layer = over_owned(alloc, newer, older)?;
            Ok(layer)
        }
        None => Ok(newer),
    }
}

/// The only layer, or the empty one.
fn only_of(alloc: Global, mut layers: Vec<Layer>) -> Layer
    requires { vec_len layers ≤ 1 }
    ensures { result ≡ over_all_of layers.items }
{
    match layers.pop() {
        Some(layer) => {
            // So the proof knows that the layer is in form.
            let _dels = layer.dels();
            layer
        }
        None => Layer::from_parts(Vec::new(alloc), Vec::new(alloc)),
    }
}
