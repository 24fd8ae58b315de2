//! What holds of all versions and edits. Each function does nothing: its contract is a law of the definitions that the
//! contracts of this crate and of those above cite.
ghost use Rattle.std.specs.Prelude.{◌≡◌, ◌≢◌, ℕ, ◌<◌, ◌≤◌, ◌==◌, All, List, [], ◌∷◌, ◌++◌, length, map, nat_lt, not, true, if◌then◌else◌, Some, None};
ghost use Rattle.std.specs.List.{list_all};
ghost use Rattle.std.specs.FinMap.{empty};
ghost use Rattle.pb_edit.specs.Edit.{VersionEdit};
ghost use Rattle.pb_edit.specs.Grammar.{IsEdit, edit_spelling};
ghost use Rattle.pb_keys.specs.Span.{KeySpan};
ghost use Rattle.pb_keys.specs.View.{IsView};
ghost use Rattle.pb_rows.specs.Applied.{applied, applied_newest_first};
ghost use Rattle.pb_rows.specs.Hull.{hull_of};
ghost use Rattle.pb_rows.specs.Layer.{KeyLayer};
ghost use Rattle.pb_rows.specs.Viewed.{plain_view};
ghost use Rattle.pb_version.specs.Version.{VersionView, empty_version, all_tables, tables_of_level};
ghost use Rattle.pb_version.specs.Edited.{edited, five_after};
ghost use Rattle.pb_version.specs.Meaning.{layer_of_table, map_of};
ghost use Rattle.pb_version.specs.State.{IsVersion, IsSpellable};
ghost use Rattle.pb_version.specs.Rules.{first_broken};
ghost use Rattle.pb_version.specs.Fold.{FoldsTo};
ghost use Rattle.pb_version.specs.SaysVersion.{SaysVersion};
ghost use Rattle.pb_version.specs.Snapshot.{snapshot_of};
ghost use Rattle.pb_version.specs.Flush.{flush_edit, flush_table, with_layer, MayFlush};
ghost use Rattle.pb_version.specs.Examples.{first_edit, edit_without_format, new_store, first_flush, flushed_store, carve_edit, carved_store};

use super::Broken;

mod above;
mod on_top;

pub use above::{
    a_flush_adds_above, adding_above_joins, levels_say_in_turn, same_tables_add_above,
    tables_apart_say_alone,
};
pub use on_top::{
    all_on_top, more_tables_break_no_rule, on_top_is_applied, stored_tables, tables_come_last,
    the_lesser_level_counts, what_is_on_top,
};

/// The first edit of a new store folds to a version without tables, a flush adds its table, and an excise leaves a part of it.
pub fn the_first_edits()
    ensures first { FoldsTo (first_edit ∷ []) new_store }
    ensures flush { FoldsTo (first_edit ∷ first_flush ∷ []) flushed_store }
    ensures carve { FoldsTo (first_edit ∷ first_flush ∷ carve_edit ∷ []) carved_store }
    ensures twice { first_broken flushed_store first_flush ≡ Some Broken.V2 }
    ensures without_format { first_broken empty_version edit_without_format ≡ Some Broken.V8 }
{}

/// An edit that breaks no rule takes what edits fold to further, and they fold to one version alone.
pub fn edits_fold_further()
    ensures first { (edit : VersionEdit) → first_broken empty_version edit ≡ None → FoldsTo (edit ∷ []) (edited empty_version edit) }
    ensures further { (edits : List VersionEdit) (version : VersionView) (edit : VersionEdit) → FoldsTo edits version → first_broken version edit ≡ None → FoldsTo (edits ++ edit ∷ []) (edited version edit) }
    ensures one { (edits : List VersionEdit) (a b : VersionView) → FoldsTo edits a → FoldsTo edits b → a ≡ b }
{}

/// A snapshot makes its version anew from nothing, and breaks no rule once the version had its first edit: before it, there
/// are no five numbers yet that fit each other. It is an edit of the grammar.
pub fn a_snapshot_folds_back()
    ensures back { (v : VersionView) → IsVersion v → edited empty_version (snapshot_of v) ≡ v }
    ensures unbroken { (v : VersionView) → IsVersion v → v.five.format ≢ 0 → first_broken empty_version (snapshot_of v) ≡ None }
    ensures folds { (v : VersionView) → IsVersion v → v.five.format ≢ 0 → FoldsTo (snapshot_of v ∷ []) v }
    ensures spellable { (v : VersionView) → IsVersion v → IsSpellable (snapshot_of v) }
    ensures in_form { (v : VersionView) → IsVersion v → IsEdit (snapshot_of v) }
    ensures too_early { first_broken empty_version (snapshot_of empty_version) ≡ Some Broken.V8 }
{}

/// The map that a version means is made of its tables, the newest first as they stand.
pub fn the_newest_table_counts()
    ensures { (v : VersionView) (layers : ℕ → KeyLayer) → map_of v layers ≡ applied_newest_first (map (layer_of_table layers) (all_tables v)) empty }
{}

/// The edit of a flush breaks no rule but V9, and that one exactly where 4,096 tables stand; its table comes first, and the
/// map after it is the layer applied to the map before.
pub fn a_flush_is_applied()
    ensures rules { (v : VersionView) (count log number size : ℕ) (hull : KeySpan) → IsVersion v → MayFlush v count log number hull → first_broken v (flush_edit count log number size hull) ≡ (if nat_lt (length (all_tables v)) 4096 then None else Some Broken.V9) }
    ensures first { (v : VersionView) (count log number size : ℕ) (hull : KeySpan) → IsVersion v → list_all (λ t. nat_lt t.rank number) (tables_of_level v 0) ≡ true → all_tables (edited v (flush_edit count log number size hull)) ≡ flush_table number size hull ∷ all_tables v }
    ensures backings { (v : VersionView) (count log number size : ℕ) (hull : KeySpan) → (edited v (flush_edit count log number size hull)).backings ≡ v.backings }
    ensures five { (v : VersionView) (count log number size : ℕ) (hull : KeySpan) → (edited v (flush_edit count log number size hull)).five ≡ five_after v.five (flush_edit count log number size hull) }
    ensures map { (v : VersionView) (count log number size : ℕ) (hull : KeySpan) (layers : ℕ → KeyLayer) (layer : KeyLayer) → IsVersion v → list_all (λ t. nat_lt t.rank number) (tables_of_level v 0) ≡ true → hull_of layer ≡ Some hull → list_all (λ t. not (t.backing == number)) (all_tables v) ≡ true → map_of (edited v (flush_edit count log number size hull)) (with_layer layers number layer) ≡ applied layer (map_of v layers) }
{}

/// What payloads say is a version, with all that holds of each.
pub fn says_a_version()
    ensures { (payloads : List (List ℕ)) (v : VersionView) → SaysVersion payloads v → IsVersion v }
{}

/// The view of each table of a version is in form, and it is bounds alone: no table has a prefix or a suffix yet.
pub fn tables_are_viewed_by_bounds()
    ensures { (v : VersionView) → IsVersion v → All (λ t. IsView t.view × (t.view ≡ plain_view t.view.bounds)) (all_tables v) }
{}

/// An edit of the grammar that breaks no rule of a version fits a payload, and is far from its limit.
pub fn an_edit_is_short()
    ensures fits { (v : VersionView) (edit : VersionEdit) → IsVersion v → IsEdit edit → first_broken v edit ≡ None → length (edit_spelling edit) < 67108864 }
    ensures most { (v : VersionView) (edit : VersionEdit) → IsVersion v → IsEdit edit → first_broken v edit ≡ None → length (edit_spelling edit) ≤ 18874368 }
{}

/// The snapshot of a version fits a payload.
pub fn a_snapshot_is_short()
    ensures { (v : VersionView) → IsVersion v → length (edit_spelling (snapshot_of v)) ≤ 18874368 }
{}

/// What the grammar of edits says, a version needs.
pub fn an_edit_of_the_grammar_is_spellable()
    ensures { (edit : VersionEdit) → IsEdit edit → IsSpellable edit }
{}
