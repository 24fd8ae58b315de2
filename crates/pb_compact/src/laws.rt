//! What holds of the outputs of all layers. Each function does nothing: its contract is a law of the definitions that the
//! contracts of this crate cite.
ghost use Rattle.std.specs.Prelude.{◌≡◌, ◌<◌, ◌≤◌, ◌+◌, ◌*◌, ◌-◌, ℕ, List, [], ◌∷◌, length, slice_index_or, All, Contains, Some};
ghost use Rattle.std.specs.List.{AllPairs};
ghost use Rattle.pb_compact.specs.Laws.{AreFull, HasHullWithin, HullsRise, value_alone};
ghost use Rattle.pb_compact.specs.Outputs.{full_output, outputs_of, sizes_of, values_alone};
ghost use Rattle.pb_keys.specs.Key.{prefix_of};
ghost use Rattle.pb_keys.specs.Span.{KeySpan};
ghost use Rattle.pb_rows.specs.Hull.{HaveSameLayers, HullsApart, hull_of};
ghost use Rattle.pb_rows.specs.Layer.{KeyLayer, KeyRow, IsFilled, IsLayer, layer_of};
ghost use Rattle.pb_rows.specs.Verdict.{verdict, verdicts};

use super::points::FULL_OUTPUT;

mod compacting;

pub use compacting::{
    a_compaction_breaks_no_rule, adding_above_keeps_it_fit, compacted_keeps_the_map,
    no_input_is_left, what_is_chosen_fits,
};

/// The outputs of a layer say of each key what the layer says, in any order.
pub fn outputs_say_the_same()
    ensures says { (layer : KeyLayer) (key : List ℕ) → IsLayer layer → verdicts (outputs_of layer) key ≡ verdict layer key }
    ensures in_any_order { (layer : KeyLayer) (others : List KeyLayer) (key : List ℕ) → IsLayer layer → HaveSameLayers (outputs_of layer) others
        → verdicts others key ≡ verdict layer key }
{}

/// Each output is a layer that has a row or a deletion. Their hulls rise, so no two overlap, and lie within the layer's.
pub fn outputs_are_layers()
    ensures in_form { (layer : KeyLayer) → IsLayer layer → All IsLayer (outputs_of layer) }
    ensures filled { (layer : KeyLayer) → IsLayer layer → All IsFilled (outputs_of layer) }
    ensures rise { (layer : KeyLayer) → IsLayer layer → AllPairs HullsRise (outputs_of layer) }
    ensures apart { (layer : KeyLayer) → IsLayer layer → AllPairs HullsApart (outputs_of layer) }
    ensures within { (layer : KeyLayer) (hull : KeySpan) → IsLayer layer → hull_of layer ≡ Some hull → All (HasHullWithin hull) (outputs_of layer) }
{}

/// With a row an output has each other row of its prefix.
pub fn a_prefix_stays_together()
    ensures { (layer output : KeyLayer) (row other : KeyRow) → Contains (outputs_of layer) output → Contains output.rows row
        → Contains layer.rows other → prefix_of row.key ≡ prefix_of other.key → Contains output.rows other }
{}

/// Each output but the last has 262,144 bytes of keys and values or more, and fewer without the rows of its last prefix.
pub fn outputs_are_full()
    ensures { (layer : KeyLayer) (k : ℕ) (d : KeyLayer) → IsLayer layer → k + 1 < length (outputs_of layer) → AreFull (slice_index_or (outputs_of layer) k d).rows }
{}

/// So there is one output more, at most, than the sizes of all rows have such sums.
pub fn outputs_are_few()
    ensures { (layer : KeyLayer) → full_output * (length (outputs_of layer) - 1) ≤ sizes_of layer.rows }
{}

/// A layer of deletions alone is its one output, and the empty layer has none.
pub fn a_layer_of_deletions_is_one_output()
    ensures one { (layer : KeyLayer) → IsLayer layer → IsFilled layer → layer.rows ≡ [] → outputs_of layer ≡ layer ∷ [] }
    ensures none { outputs_of (layer_of [] []) ≡ [] }
{}

/// The values alone say of each key what the layer says where that is a value, and nothing else.
pub fn values_say_the_values()
    ensures { (layer : KeyLayer) (key : List ℕ) → IsLayer layer → verdict (values_alone layer) key ≡ value_alone (verdict layer key) }
{}

/// The limit of the code is that of the definitions.
pub fn a_full_output_is_a_numeral()
    ensures { FULL_OUTPUT ≡ full_output }
{}
