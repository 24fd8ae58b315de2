//! Laws of views, of hulls, and of what a span touches.
ghost use Rattle.std.specs.Prelude.{◌≡◌, ◌≢◌, ◌↔◌, ◌⊎◌, ℕ, List, [], ◌++◌, All, None, Some, true, false, if◌then◌else◌};
ghost use Rattle.std.specs.Option.{option_or};
ghost use Rattle.pb_keys.specs.Key.{at_sign, prefix_of, suffix_of};
ghost use Rattle.pb_keys.specs.Map.{Map, without};
ghost use Rattle.pb_keys.specs.Order.{is_upto};
ghost use Rattle.pb_keys.specs.Span.{KeySpan, IsSpan, holds_key};
ghost use Rattle.pb_keys.specs.View.{KeyView, IsMapping, IsView};
ghost use Rattle.pb_rows.specs.Applied.{applied};
ghost use Rattle.pb_rows.specs.Hull.{hull_of};
ghost use Rattle.pb_rows.specs.Layer.{KeyLayer, IsLayer, IsFilled};
ghost use Rattle.pb_rows.specs.Over.{over};
ghost use Rattle.pb_rows.specs.Touching.{touches};
ghost use Rattle.pb_rows.specs.Verdict.{verdict, prefix_verdict, is_covered};
ghost use Rattle.pb_rows.specs.Viewed.{mapped_key, mapped, viewed, plain_view, with_bounds, MapsWithin};

/// Through a view a layer says within the bounds what it says mapped, and nothing elsewhere. Through bounds that hold no
/// key more than the view's it says there what it says through the view.
pub fn viewed_by_key()
    ensures one { (view : KeyView) (layer : KeyLayer) (key : List ℕ) → verdict (viewed view layer) key ≡ (if holds_key view.bounds key then verdict (mapped view layer) key else None) }
    ensures narrower { (bounds : KeySpan) (view : KeyView) (layer : KeyLayer) (key : List ℕ) → ((k : List ℕ) → holds_key bounds k ≡ true → holds_key view.bounds k ≡ true) → verdict (viewed (with_bounds bounds view) layer) key ≡ (if holds_key bounds key then verdict (viewed view layer) key else None) }
{}

/// Without a suffix of the view a layer says mapped, behind the view's prefix, what it says of the rest. With one it says,
/// between the prefix and the suffix, what its first row of that prefix says, or else its deletions. It says nothing of
/// keys that don't begin with the view's prefix.
pub fn mapped_by_key()
    ensures own_suffix { (view : KeyView) (layer : KeyLayer) (key : List ℕ) → IsMapping view → view.suffix ≡ [] → verdict (mapped view layer) (view.prefix ++ key) ≡ verdict layer key }
    ensures given_suffix { (view : KeyView) (layer : KeyLayer) (p : List ℕ) → IsMapping view → view.suffix ≢ [] → All (λ b. b ≢ at_sign) p → verdict (mapped view layer) (view.prefix ++ p ++ view.suffix) ≡ option_or (prefix_verdict layer.rows p) (if is_covered layer.dels p then Some None else None) }
    ensures elsewhere { (view : KeyView) (layer : KeyLayer) (key : List ℕ) → ((rest : List ℕ) → key ≢ view.prefix ++ rest) → verdict (mapped view layer) key ≡ None }
{}

/// The prefix of a mapped key is the view's followed by the key's, and its suffix the view's, or the key's own where the
/// view has none.
pub fn mapped_keys_have_these_parts()
    ensures prefix { (view : KeyView) (key : List ℕ) → IsMapping view → prefix_of (mapped_key view key) ≡ view.prefix ++ prefix_of key }
    ensures own_suffix { (view : KeyView) (key : List ℕ) → IsMapping view → view.suffix ≡ [] → suffix_of (mapped_key view key) ≡ suffix_of key }
    ensures given_suffix { (view : KeyView) (key : List ℕ) → IsMapping view → view.suffix ≢ [] → suffix_of (mapped_key view key) ≡ view.suffix }
{}

/// Bounds alone change no key and no end.
pub fn a_plain_view_keeps_limits()
    ensures { (bounds : KeySpan) (layer : KeyLayer) → IsLayer layer → MapsWithin (plain_view bounds) layer }
{}

/// What a view in form shows of a layer in form is a layer in form, where keys and ends keep their limits.
pub fn views_keep_layers()
    ensures { (view : KeyView) (layer : KeyLayer) → IsView view → IsLayer layer → MapsWithin view layer → IsLayer (viewed view layer) }
{}

/// Outside its hull a layer says nothing, and through it all; the hull of a layer in form is a span, and shows the layer
/// whole.
pub fn a_hull_holds_its_layer()
    ensures silent { (layer : KeyLayer) (hull : KeySpan) (key : List ℕ) → hull_of layer ≡ Some hull → holds_key hull key ≡ false → verdict layer key ≡ None }
    ensures shown { (layer : KeyLayer) (hull : KeySpan) (key : List ℕ) → hull_of layer ≡ Some hull → verdict (viewed (plain_view hull) layer) key ≡ verdict layer key }
    ensures span { (layer : KeyLayer) (hull : KeySpan) → IsLayer layer → hull_of layer ≡ Some hull → IsSpan hull }
    ensures whole { (layer : KeyLayer) (hull : KeySpan) → IsLayer layer → hull_of layer ≡ Some hull → viewed (plain_view hull) layer ≡ layer }
{}

/// What bounds show of a layer has its hull within them.
pub fn a_cut_layer_has_its_hull_within()
    ensures lo { (bounds hull : KeySpan) (layer : KeyLayer) → hull_of (viewed (plain_view bounds) layer) ≡ Some hull → is_upto bounds.lo hull.lo ≡ true }
    ensures hi { (bounds hull : KeySpan) (layer : KeyLayer) → hull_of (viewed (plain_view bounds) layer) ≡ Some hull → is_upto hull.hi bounds.hi ≡ true }
{}

/// A layer has no hull exactly where it isn't filled; over another it is filled exactly where one of both is.
pub fn filled()
    ensures hull { (layer : KeyLayer) → (hull_of layer ≡ None) ↔ ¬ (IsFilled layer) }
    ensures over { (newer older : KeyLayer) → IsFilled (over newer older) ↔ (IsFilled newer ⊎ IsFilled older) }
{}

/// A layer that doesn't touch a span says nothing of its keys.
pub fn silent_where_untouched()
    ensures { (layer : KeyLayer) (span : KeySpan) (key : List ℕ) → touches layer span ≡ false → holds_key span key ≡ true → verdict layer key ≡ None }
{}

/// A layer that doesn't touch a span may be applied before the span is emptied or after, and one that doesn't touch
/// another's hull before the other or after.
pub fn untouched_commutes()
    ensures span { (layer : KeyLayer) (m : Map) (span : KeySpan) → touches layer span ≡ false → applied layer (without m span) ≡ without (applied layer m) span }
    ensures layer { (a b : KeyLayer) (m : Map) (hull : KeySpan) → hull_of b ≡ Some hull → touches a hull ≡ false → applied a (applied b m) ≡ applied b (applied a m) }
{}
