//! What holds of every ingest. Each function does nothing: its contract is a law of the definitions.
ghost use Rattle.std.specs.Prelude.{◌≡◌, ℕ, ◌+◌, ◌<◌, ◌≤◌, List, [], ◌∷◌, All, map, length, nat_le, true, false, if◌then◌else◌, Option, Some, None, Contains};
ghost use Rattle.pb_edit.specs.Edit.{VersionEdit};
ghost use Rattle.pb_edit.specs.Grammar.{AreItems, IsPhysical, physical_below};
ghost use Rattle.pb_keys.specs.Order.{end_above};
ghost use Rattle.pb_keys.specs.Span.{KeySpan, IsSpan, span_of, overlap};
ghost use Rattle.pb_rows.specs.Layer.{KeyLayer};
ghost use Rattle.pb_rows.specs.Applied.{applied_in_turn};
ghost use Rattle.pb_version.specs.Version.{TableView, VersionView, all_tables, tables_of_level};
ghost use Rattle.pb_version.specs.Edited.{edited};
ghost use Rattle.pb_version.specs.Rules.{are_distinct, first_broken};
ghost use Rattle.pb_version.specs.Meaning.{map_of};
ghost use Rattle.pb_version.specs.State.{IsVersion};
ghost use Rattle.pb_version.specs.Adding.{more_tables, with_tables, IsOnTop};
ghost use Rattle.pb_version.specs.Above.{lies_within, AddsAbove};
ghost use Rattle.pb_ingest.specs.Levels.{rests_of, level_of, level_without, HasRests};
ghost use Rattle.pb_ingest.specs.Planned.{WrittenTable, items_of, numbers_of, AreNew, AreApart, IsWritten, HasItsHull};
ghost use Rattle.pb_ingest.specs.Pairs.{first_pair};
ghost use Rattle.pb_ingest.specs.Examples.{a, b, c, d, m, n, x, z, table, at_b, store, written, items};

use pb_version::Broken;

/// A table whose rank is above those of level 0 is on top at each level up to the last free one, in every version of what
/// stays beside the cut; such a version is the old one itself where there is no cut.
pub fn a_free_level_is_on_top()
    ensures on_top { (old new : VersionView) (cut : Option KeySpan) (level : ℕ) (t : TableView) → HasRests cut old new → All (λ u. u.rank < t.rank) (tables_of_level old 0) → level ≤ level_without old cut t.view.bounds → IsOnTop new level t }
    ensures itself { (v : VersionView) → HasRests None v v }
    ensures uncut { (bounds cut : KeySpan) → IsSpan bounds → IsSpan cut → overlap bounds cut ≡ false → Contains (rests_of (Some cut) bounds) bounds }
{}

/// Beside a cut that the hull lies within, all levels are free.
pub fn inside_the_cut_is_free()
    ensures { (v : VersionView) (cut hull : KeySpan) → IsVersion v → lies_within hull cut ≡ true → level_without v (Some cut) hull ≡ 6 }
{}

/// To an edit that breaks no rule and leaves what stays beside the cut come tables of new numbers, whose hulls don't overlap:
/// it breaks no rule but V9, and that one exactly where more than 4,096 tables stand then. Its new tables are in the form of
/// the grammar.
pub fn an_ingest_breaks_no_rule()
    ensures rules { (v : VersionView) (cut : Option KeySpan) (written : List WrittenTable) (edit : VersionEdit) → IsVersion v → edit.physical ≡ [] → first_broken v edit ≡ None → HasRests cut v (edited v edit) → AreNew v edit written → AreApart written → All IsWritten written → first_broken v (more_tables edit (items_of v cut written)) ≡ (if nat_le (length (all_tables (edited v edit)) + length written) 4096 then None else Some Broken.V9) }
    ensures in_form { (v : VersionView) (cut : Option KeySpan) (written : List WrittenTable) → IsVersion v → are_distinct (numbers_of written) ≡ true → All IsWritten written → AreItems IsPhysical physical_below (items_of v cut written) }
{}

/// The tables of an ingest are added above a running compaction's inputs, where what its edit does otherwise is.
pub fn an_ingest_adds_above()
    ensures { (v : VersionView) (cut : Option KeySpan) (written : List WrittenTable) (edit : VersionEdit) → AddsAbove v (edited v edit) → HasRests cut v (edited v edit) → AreNew v edit written → AddsAbove v (with_tables (edited v edit) (items_of v cut written)) }
{}

/// The map after an ingest is that of what its edit does otherwise, to which the layers of its tables are applied.
pub fn an_ingest_is_applied()
    ensures { (v : VersionView) (cut : Option KeySpan) (written : List WrittenTable) (edit : VersionEdit) (layers : ℕ → KeyLayer) → IsVersion v → edit.physical ≡ [] → HasRests cut v (edited v edit) → AreNew v edit written → AreApart written → All (HasItsHull layers) written → map_of (edited v (more_tables edit (items_of v cut written))) layers ≡ applied_in_turn (map (λ w. layers w.number) written) (map_of (edited v edit) layers) }
{}

/// Levels computed: without tables; over one of level 6, and beside it; over one of level 0; over one of level 1; over one of
/// level 3 and one of level 5; and beside a cut of all, and of a part.
pub fn levels_chosen()
    ensures empty { level_of (store [] [] [] [] []) (span_of a b) ≡ 6 }
    ensures over { level_of (store [] [] [] [] at_b) (span_of a (end_above c)) ≡ 5 }
    ensures beside { level_of (store [] [] [] [] at_b) (span_of c d) ≡ 6 }
    ensures first { level_of (store (table a c) [] [] [] (table x z)) (span_of b d) ≡ 0 }
    ensures second { level_of (store [] (table a c) [] [] []) (span_of b d) ≡ 0 }
    ensures fourth { level_of (store [] [] (table a c) (table b d) []) (span_of b d) ≡ 2 }
    ensures all_cut { level_without (store (table a z) [] [] [] []) (Some (span_of a z)) (span_of b c) ≡ 6 }
    ensures part_cut { level_without (store [] [] [] (table a m) []) (Some (span_of a c)) (span_of b n) ≡ 4 }
    ensures uncut { level_of (store (table a z) [] [] [] []) (span_of b c) ≡ 0 }
    ensures touching { level_of (store [] [] [] [] (table a b)) (span_of b c) ≡ 6 }
{}

/// Pairs of spans that overlap, and items, computed: of each the lesser level, by level and then by number.
pub fn tables_planned()
    ensures pair { first_pair (span_of a (end_above c) ∷ span_of c (end_above c) ∷ []) ≡ Some (0, 1) }
    ensures second { first_pair (span_of c d ∷ span_of a b ∷ span_of a c ∷ []) ≡ Some (1, 2) }
    ensures none { first_pair (span_of b c ∷ span_of a b ∷ []) ≡ None }
    ensures items { items_of (store [] [] [] [] at_b) None (written 9 c d 6 ∷ written 8 a c 6 ∷ written 7 x z 3 ∷ written 6 m n 6 ∷ []) ≡ items }
{}
