//! What holds of all that is lent and received. Each function does nothing: its contract is a law of the definitions.
ghost use Rattle.std.specs.Prelude.{◌≡◌, ◌↔◌, ℕ, ◌≤◌, List, length, All, Bool, true, false};
ghost use Rattle.std.specs.FinMap.{empty};
ghost use Rattle.std.specs.List.{list_all};
ghost use Rattle.pb_keys.specs.Map.{Map, cut};
ghost use Rattle.pb_keys.specs.Span.{KeySpan, IsSpan, overlap};
ghost use Rattle.pb_keys.specs.View.{KeyView, IsView};
ghost use Rattle.pb_rows.specs.Applied.{applied, applied_newest_first};
ghost use Rattle.pb_rows.specs.Changing.{after};
ghost use Rattle.pb_rows.specs.Changing.Changing.{Receive};
ghost use Rattle.pb_rows.specs.Layer.{KeyLayer};
ghost use Rattle.pb_rows.specs.Viewed.{MapsWithin};
ghost use Rattle.pb_span_cases.specs.Remainder.{remains};
ghost use Rattle.pb_version.specs.Above.{AddsAbove};
ghost use Rattle.pb_version.specs.Edited.{comes_before};
ghost use Rattle.pb_version.specs.Meaning.{layer_of_table, map_of};
ghost use Rattle.pb_version.specs.Rules.{each_pair, are_apart, are_all_apart};
ghost use Rattle.pb_version.specs.Version.{TableView, VersionView, tables_of_level};
ghost use Rattle.pb_lend.specs.Lent.{level_is_remote, least_lent, cut_view, lent_of_level, lent_tables, IsUpper, upper_of, bundle_layers, bundle_map};
ghost use Rattle.pb_lend.specs.Received.{IsSilentOutside, received, StandsBeside, IsWithoutSpan, AddsBundle};

mod lendings;

pub use lendings::{cut_tables, deletions_hide_lent_rows, least_levels};

/// The tables that are lent, with the upper layer above them, stand for the lender's map cut to the span, from whichever level
/// on they are lent.
pub fn what_is_lent_is_the_cut_map()
    ensures { (v : VersionView) (upper newest : KeyLayer) (from : ℕ) (layers : ℕ → KeyLayer) (span : KeySpan) → length v.levels ≤ 7 → IsUpper upper newest v from layers span → bundle_map upper (lent_tables v from span) layers ≡ cut (applied newest (map_of v layers)) span }
{}

/// All that is read, the newer over the older and seen through the span, is an upper layer.
pub fn what_is_read_makes_an_upper_layer()
    ensures { (v : VersionView) (newest : KeyLayer) (from : ℕ) (layers : ℕ → KeyLayer) (span : KeySpan) → IsUpper (upper_of newest v from layers span) newest v from layers span }
{}

/// Through a view that is cut, keys and ends keep their limits where they do through the whole one; and what is left of bounds
/// that overlap the span is a span, so a view in form stays in form.
pub fn cut_views_map_within()
    ensures within { (view : KeyView) (span : KeySpan) (layer : KeyLayer) → MapsWithin view layer → MapsWithin (cut_view view span) layer }
    ensures bounds { (view : KeyView) (span : KeySpan) → IsSpan view.bounds → IsSpan span → overlap view.bounds span ≡ true → IsSpan (cut_view view span).bounds }
    ensures in_form { (view : KeyView) (span : KeySpan) → IsView view → IsSpan span → overlap view.bounds span ≡ true → IsView (cut_view view span) }
{}

/// Neither a table that is lent nor the upper layer says anything of a key that the span doesn't hold.
pub fn a_bundle_says_nothing_outside()
    ensures tables { (v : VersionView) (from : ℕ) (layers : ℕ → KeyLayer) (span : KeySpan) → All (λ lent. IsSilentOutside span (layer_of_table layers lent.1)) (lent_tables v from span) }
    ensures upper { (v : VersionView) (upper newest : KeyLayer) (from : ℕ) (layers : ℕ → KeyLayer) (span : KeySpan) → IsUpper upper newest v from layers span → IsSilentOutside span upper }
{}

/// Layers that say nothing outside a span, put in the place of that span, do what receiving the map that they make does. So a
/// bundle put there does what receiving the lender's map cut to the span does.
pub fn a_bundle_is_received()
    ensures layers { (m : Map) (span : KeySpan) (layers : List KeyLayer) → All (IsSilentOutside span) layers → received m span layers ≡ after m (Receive span (applied_newest_first layers empty)) }
    ensures bundle { (m : Map) (v : VersionView) (upper newest : KeyLayer) (from : ℕ) (layers : ℕ → KeyLayer) (span : KeySpan) → length v.levels ≤ 7 → IsUpper upper newest v from layers span → received m span (bundle_layers upper (lent_tables v from span) layers) ≡ after m (Receive span (cut (applied newest (map_of v layers)) span)) }
{}

/// The tables that are lent of a level are apart where the level's are, and stand by start as they do. They are apart from all
/// that stands beside the span: none overlaps a part that an excise of the span leaves. So with the upper layer's table above
/// all of level 0 they add nothing above what stays behind such an excise.
pub fn lent_tables_are_apart()
    ensures apart { (v : VersionView) (level : ℕ) (span : KeySpan) → are_all_apart level (tables_of_level v level) ≡ true → are_all_apart level (lent_of_level v level span) ≡ true }
    ensures by_start { (v : VersionView) (level : ℕ) (span : KeySpan) → 1 ≤ level → All (λ t. IsSpan t.view.bounds) (tables_of_level v level) → are_all_apart level (tables_of_level v level) ≡ true → each_pair (comes_before level) (tables_of_level v level) ≡ true → each_pair (comes_before level) (lent_of_level v level span) ≡ true }
    ensures beside { (v : VersionView) (level : ℕ) (span : KeySpan) (others : List TableView) → All (StandsBeside span) others → list_all (λ t. list_all (are_apart level t) others) (lent_of_level v level span) ≡ true }
    ensures parts { (v : VersionView) (level : ℕ) (span whole : KeySpan) → All (λ t. All (λ part. overlap t.view.bounds part ≡ false) (remains whole span)) (lent_of_level v level span) }
    ensures adds_above { (lender old new : VersionView) (span : KeySpan) → IsWithoutSpan old span → AddsBundle lender span old new → AddsAbove old new }
{}

/// A level counts as remote exactly where each of its tables that overlap the span stands over a remote backing. Level 5 is
/// the least that is lent exactly where both levels are, level 6 where it alone is, and none where it isn't: the least from
/// which on all are.
pub fn least_lent_is_least()
    ensures level { (v : VersionView) (is_remote : ℕ → Bool) (level : ℕ) (span : KeySpan) → level_is_remote v is_remote level span ≡ true ↔ All (λ t. overlap t.view.bounds span ≡ true → is_remote t.backing ≡ true) (tables_of_level v level) }
    ensures five { (v : VersionView) (is_remote : ℕ → Bool) (span : KeySpan) → least_lent v is_remote span ≡ 5 ↔ (level_is_remote v is_remote 5 span ≡ true) × (level_is_remote v is_remote 6 span ≡ true) }
    ensures six { (v : VersionView) (is_remote : ℕ → Bool) (span : KeySpan) → least_lent v is_remote span ≡ 6 ↔ (level_is_remote v is_remote 5 span ≡ false) × (level_is_remote v is_remote 6 span ≡ true) }
    ensures seven { (v : VersionView) (is_remote : ℕ → Bool) (span : KeySpan) → least_lent v is_remote span ≡ 7 ↔ level_is_remote v is_remote 6 span ≡ false }
    ensures least { (v : VersionView) (is_remote : ℕ → Bool) (span : KeySpan) (from : ℕ) → 5 ≤ from → from ≤ 7 → least_lent v is_remote span ≤ from ↔ ((level : ℕ) → from ≤ level → level ≤ 6 → level_is_remote v is_remote level span ≡ true) }
{}
