//! Laws of physical tables that come to a version beside what an edit does otherwise, and of those that come on top.
ghost use Rattle.std.specs.Prelude.{◌≡◌, ◌≢◌, ◌≤◌, ◌↔◌, ℕ, List, [], ◌∷◌, ◌++◌, Contains, length, map, nat_le, unwrap_or, if◌then◌else◌, true, false, Some, None};
ghost use Rattle.std.specs.List.{AllByRecursion};
ghost use Rattle.std.specs.Option.{option_or};
ghost use Rattle.std.specs.FinMap.{get};
ghost use Rattle.pb_edit.specs.Edit.{PhysicalItem, CreatedItem, VersionEdit};
ghost use Rattle.pb_edit.specs.Grammar.{AreItems, IsPhysical, IsLevel, IsEdit, physical_below, edit_spelling};
ghost use Rattle.pb_rows.specs.Applied.{applied_in_turn};
ghost use Rattle.pb_keys.specs.Span.{span_of};
ghost use Rattle.pb_rows.specs.Hull.{hull_of, HaveSameLayers};
ghost use Rattle.pb_rows.specs.Layer.{KeyLayer};
ghost use Rattle.pb_rows.specs.Verdict.{verdict, verdicts};
ghost use Rattle.pb_version.specs.Version.{VersionView, all_tables};
ghost use Rattle.pb_version.specs.Edited.{physical_table, edited};
ghost use Rattle.pb_version.specs.Rules.{first_broken};
ghost use Rattle.pb_version.specs.Meaning.{layer_of_table, map_of};
ghost use Rattle.pb_version.specs.Stored.{backing_of, stored_in};
ghost use Rattle.pb_version.specs.Adding.{more_tables, with_tables, MayAdd, AreInForm, is_on_top, StandsOnTop, AllStandOnTop, layers_of};
ghost use Rattle.pb_version.specs.Examples.{table_from, stacked, sets_its_number};

use crate::Broken;

/// The physical tables of an edit are placed last, so an edit may be planned in parts.
pub fn tables_come_last()
    ensures { (v : VersionView) (edit : VersionEdit) (ps : List PhysicalItem) → edit.physical ≡ [] → edited v (more_tables edit ps) ≡ with_tables (edited v edit) ps }
{}

/// To an edit that breaks no rule and has no physical tables come such as have numbers of their own and are apart on their
/// levels: it breaks no rule but V9, and that one exactly where more than 4,096 tables stand then. It is an edit of the grammar
/// wherever it has an item at all, which one new table is.
pub fn more_tables_break_no_rule()
    ensures rules { (v : VersionView) (edit : VersionEdit) (ps : List PhysicalItem) → edit.physical ≡ [] → first_broken v edit ≡ None → MayAdd v edit ps → first_broken v (more_tables edit ps) ≡ (if nat_le (length (all_tables (with_tables (edited v edit) ps))) 4096 then None else Some Broken.V9) }
    ensures in_form { (edit : VersionEdit) (ps : List PhysicalItem) → AreInForm edit → AreItems IsPhysical physical_below ps → edit_spelling (more_tables edit ps) ≢ [] → IsEdit (more_tables edit ps) }
    ensures some { (edit : VersionEdit) (ps : List PhysicalItem) → ps ≢ [] → edit_spelling (more_tables edit ps) ≢ [] }
{}

/// A table on top, whose bounds are the hull of its layer, says at every key what its layer says, before all others.
pub fn on_top_is_applied()
    ensures { (v : VersionView) (layers : ℕ → KeyLayer) (p : PhysicalItem) → StandsOnTop v layers p → (key : List ℕ) → verdicts (map (layer_of_table layers) (all_tables (with_tables v (p ∷ [])))) key ≡ option_or (verdict (layers p.number) key) (verdicts (map (layer_of_table layers) (all_tables v)) key) }
{}

/// The map of tables of one span on the levels 0, 1 and 6, computed: the lesser level counts.
pub fn the_lesser_level_counts()
    ensures first { verdicts (map (layer_of_table sets_its_number) (all_tables (stacked (table_from (97 ∷ []) (98 ∷ []) 6 6 ∷ []) (table_from (97 ∷ []) (98 ∷ []) 5 5 ∷ [])))) (97 ∷ []) ≡ Some (Some (6 ∷ [])) }
    ensures second { verdicts (map (layer_of_table sets_its_number) (all_tables (stacked [] (table_from (97 ∷ []) (98 ∷ []) 5 5 ∷ [])))) (97 ∷ []) ≡ Some (Some (5 ∷ [])) }
    ensures last { verdicts (map (layer_of_table sets_its_number) (all_tables (stacked [] []))) (97 ∷ []) ≡ Some (Some (4 ∷ [])) }
{}

/// What isn't on top, computed: on level 0 under a table of a greater rank that it overlaps, over a table of its own deeper
/// level, or below one of a lesser level; and beside them what is. Bounds that are wider than the hull of the layer don't do
/// either: that of the row a ends right behind a.
pub fn what_is_on_top()
    ensures greater_rank { is_on_top (stacked (table_from (97 ∷ []) (98 ∷ []) 6 6 ∷ []) []) 0 (table_from (97 ∷ []) (98 ∷ []) 7 5) ≡ false }
    ensures lesser_rank { is_on_top (stacked (table_from (97 ∷ []) (98 ∷ []) 6 6 ∷ []) []) 0 (table_from (97 ∷ []) (98 ∷ []) 7 7) ≡ true }
    ensures own_level { is_on_top (stacked [] []) 6 (table_from (97 ∷ []) (98 ∷ []) 7 7) ≡ false }
    ensures touching { is_on_top (stacked [] []) 6 (table_from (98 ∷ []) (99 ∷ []) 7 7) ≡ true }
    ensures lesser_level { is_on_top (stacked [] (table_from (97 ∷ []) (98 ∷ []) 5 5 ∷ [])) 5 (table_from (97 ∷ []) (98 ∷ []) 7 7) ≡ false }
    ensures deeper_level { is_on_top (stacked [] []) 5 (table_from (97 ∷ []) (98 ∷ []) 7 7) ≡ true }
    ensures hull { hull_of (sets_its_number 4) ≡ Some (span_of (97 ∷ []) (97 ∷ 0 ∷ [])) }
{}

/// Several tables on top that don't overlap: at each key the layers of the new tables speak before all others, of which one
/// speaks at most, and they may be applied in any order.
pub fn all_on_top()
    ensures says { (v : VersionView) (layers : ℕ → KeyLayer) (ps : List PhysicalItem) → AllStandOnTop v layers ps → (key : List ℕ) → verdicts (map (layer_of_table layers) (all_tables (with_tables v ps))) key ≡ option_or (verdicts (layers_of layers ps) key) (verdicts (map (layer_of_table layers) (all_tables v)) key) }
    ensures value { (v : VersionView) (layers : ℕ → KeyLayer) (ps : List PhysicalItem) → AllStandOnTop v layers ps → (key : List ℕ) → get (map_of (with_tables v ps) layers) key ≡ unwrap_or (verdicts (layers_of layers ps) key) (get (map_of v layers) key) }
    ensures map { (v : VersionView) (layers : ℕ → KeyLayer) (ps : List PhysicalItem) (ls : List KeyLayer) → AllStandOnTop v layers ps → HaveSameLayers (layers_of layers ps) ls → map_of (with_tables v ps) layers ≡ applied_in_turn ls (map_of v layers) }
{}

/// What has bytes behind a version with new tables is what has bytes behind the new tables and behind the version.
pub fn stored_tables()
    ensures { (v : VersionView) (ps : List PhysicalItem) (b : CreatedItem) → length v.levels ≡ 7 → AllByRecursion (λ p. IsLevel p.level) ps → Contains (stored_in (with_tables v ps)) b ↔ Contains (map backing_of (map physical_table ps) ++ stored_in v) b }
{}
