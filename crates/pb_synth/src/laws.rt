//! What holds of all views and layers. Each function does nothing: its contract is a law of the definitions that the
//! contracts of this crate cite.
ghost use Rattle.std.specs.Prelude.{◌≡◌, ◌≢◌, ◌↔◌, ◌⊎◌, List, ℕ, [], length, true};
ghost use Rattle.pb_keys.specs.Key.{IsKey, IsKeyLength, key_cmp, prefix_of};
ghost use Rattle.pb_keys.specs.Order.{is_upto};
ghost use Rattle.pb_keys.specs.Span.{KeySpan, IsSpan};
ghost use Rattle.pb_keys.specs.View.{KeyView, IsMapping};
ghost use Rattle.pb_rows.specs.Layer.{KeyLayer, IsLayer};
ghost use Rattle.pb_rows.specs.Viewed.{mapped_key, mapped_span, MapsWithin};
ghost use Rattle.pb_synth.specs.Clash.{HasNoClash};
ghost use Rattle.pb_synth.specs.Limits.{HasShortEnds, KeepsLimits, StayApart};
ghost use Rattle.std.specs.declared.cmp.Ordering.TheVariants.{Less};

/// What a view makes of a key or of a span is one exactly where it keeps the limit.
pub fn limits_alone_decide()
    ensures key { (view : KeyView) (key : List ℕ) → IsMapping view → IsKey key → IsKey (mapped_key view key) ↔ IsKeyLength (length (mapped_key view key)) }
    ensures span { (view : KeyView) (span : KeySpan) → IsMapping view → IsSpan span → IsSpan (mapped_span view span) ↔ HasShortEnds (mapped_span view span) }
{}

/// Through a view with a suffix no two keys of a layer become one exactly where no two rows have one prefix; through one
/// without, none ever do.
pub fn a_suffix_alone_clashes()
    ensures with_one { (view : KeyView) (layer : KeyLayer) → IsMapping view → IsLayer layer → view.suffix ≢ [] → StayApart view layer.rows ↔ HasNoClash layer.rows }
    ensures without { (view : KeyView) (layer : KeyLayer) → IsMapping view → IsLayer layer → view.suffix ≡ [] → StayApart view layer.rows }
{}

/// A layer maps within exactly where each key and each end keeps its limit, and, where the view has a suffix, no two rows
/// have one prefix.
pub fn what_maps_within()
    ensures { (view : KeyView) (layer : KeyLayer) → IsMapping view → IsLayer layer → MapsWithin view layer ↔ (KeepsLimits view layer × ((view.suffix ≡ []) ⊎ HasNoClash layer.rows)) }
{}

/// The prefixes of mapped keys rise with the keys, or stay.
pub fn mapped_prefixes_rise()
    ensures { (view : KeyView) (a b : List ℕ) → IsMapping view → key_cmp a b ≡ Less → is_upto (prefix_of (mapped_key view a)) (prefix_of (mapped_key view b)) ≡ true }
{}
