//! What holds of all layers and maps. Each function does nothing: its contract is a law of the definitions that the
//! contracts of this crate and of those above cite.
ghost use Rattle.std.specs.Prelude.{◌≡◌, ◌↔◌, ℕ, List, [], ◌++◌, Option, None, Some, unwrap_or, reverse, if◌then◌else◌};
ghost use Rattle.std.specs.FinMap.{get};
ghost use Rattle.std.specs.Option.{option_or};
ghost use Rattle.std.specs.Ordering.{eq_by_cmp};
ghost use Rattle.pb_keys.specs.Key.{key_cmp};
ghost use Rattle.pb_keys.specs.Map.{Map};
ghost use Rattle.pb_keys.specs.Span.{KeySpan, holds_key};
ghost use Rattle.pb_keys.specs.View.{KeyView};
ghost use Rattle.pb_rows.specs.Applied.{applied, applied_newest_first};
ghost use Rattle.pb_rows.specs.Changing.{after};
ghost use Rattle.pb_rows.specs.Changing.Changing.{Set, Del, DelRange, Excise, Ingest, IngestExcise, External, Receive};
ghost use Rattle.pb_rows.specs.Hull.{hull_of};
ghost use Rattle.pb_rows.specs.Layer.{KeyLayer, layer_of};
ghost use Rattle.pb_rows.specs.Over.{over};
ghost use Rattle.pb_rows.specs.Verdict.{verdict, verdicts};
ghost use Rattle.pb_rows.specs.Viewed.{viewed, plain_view};

mod layering;
mod views;

pub use layering::{
    a_layers_pairs, apart_in_any_order, changes_are_layers, last_change_is_newest,
    layer_does_the_command, over_all_says_the_newest, over_groups, over_keeps_layers,
    rows_are_their_verdicts, same_effect,
};
pub use views::{
    a_cut_layer_has_its_hull_within, a_hull_holds_its_layer, a_plain_view_keeps_limits, filled,
    mapped_by_key, mapped_keys_have_these_parts, silent_where_untouched, untouched_commutes,
    viewed_by_key, views_keep_layers,
};

/// A map to which a layer was applied has at each key what the layer says, or else what it had.
pub fn applied_by_key()
    ensures one { (layer : KeyLayer) (m : Map) (key : List ℕ) → get (applied layer m) key ≡ unwrap_or (verdict layer key) (get m key) }
    ensures many { (layers : List KeyLayer) (m : Map) (key : List ℕ) → get (applied_newest_first layers m) key ≡ unwrap_or (verdicts layers key) (get m key) }
{}

/// A layer over another says of each key what the newer says, or else what the older says. So do lists of layers.
pub fn newer_first()
    ensures layers { (newer older : KeyLayer) (key : List ℕ) → verdict (over newer older) key ≡ option_or (verdict newer key) (verdict older key) }
    ensures lists { (newer older : List KeyLayer) (key : List ℕ) → verdicts (newer ++ older) key ≡ option_or (verdicts newer key) (verdicts older key) }
{}

/// Through bounds alone a layer says the same of the keys within, and nothing of the others.
pub fn bounded_by_key()
    ensures { (bounds : KeySpan) (layer : KeyLayer) (key : List ℕ) → verdict (viewed (plain_view bounds) layer) key ≡ (if holds_key bounds key then verdict layer key else None) }
{}

/// The empty layer alone has no hull.
pub fn only_the_empty_layer_has_no_hull()
    ensures { (layer : KeyLayer) → (hull_of layer ≡ None) ↔ (layer ≡ layer_of [] []) }
{}

/// What the map has at each key after each changing command.
pub fn changed_by_key()
    ensures set { (m : Map) (at value key : List ℕ) → get (after m (Set at value)) key ≡ (if eq_by_cmp key_cmp key at then Some value else get m key) }
    ensures del { (m : Map) (at key : List ℕ) → get (after m (Del at)) key ≡ (if eq_by_cmp key_cmp key at then None else get m key) }
    ensures del_range { (m : Map) (span : KeySpan) (key : List ℕ) → get (after m (DelRange span)) key ≡ (if holds_key span key then None else get m key) }
    ensures excise { (m : Map) (span : KeySpan) (key : List ℕ) → get (after m (Excise span)) key ≡ (if holds_key span key then None else get m key) }
    ensures ingest { (m : Map) (layers : List KeyLayer) (key : List ℕ) → get (after m (Ingest layers)) key ≡ unwrap_or (verdicts (reverse layers) key) (get m key) }
    ensures ingest_excise { (m : Map) (span : KeySpan) (layers : List KeyLayer) (key : List ℕ) → get (after m (IngestExcise span layers)) key ≡ unwrap_or (verdicts (reverse layers) key) (if holds_key span key then None else get m key) }
    ensures external { (m : Map) (view : KeyView) (layer : KeyLayer) (key : List ℕ) → get (after m (External view layer)) key ≡ unwrap_or (verdict (viewed view layer) key) (get m key) }
    ensures receive { (m sub : Map) (span : KeySpan) (key : List ℕ) → get (after m (Receive span sub)) key ≡ option_or (get sub key) (if holds_key span key then None else get m key) }
{}
