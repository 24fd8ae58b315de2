//! Laws of levels that speak one after the other, and of what commands add above the tables that stand.
ghost use Rattle.std.specs.Prelude.{◌≡◌, ◌↔◌, ℕ, ◌≤◌, List, ◌∷◌, All, Contains, nat_lt, true, false, None};
ghost use Rattle.std.specs.List.{list_all};
ghost use Rattle.pb_keys.specs.Span.{KeySpan, holds_key, overlap};
ghost use Rattle.pb_rows.specs.Layer.{KeyLayer};
ghost use Rattle.pb_rows.specs.Verdict.{verdict};
ghost use Rattle.pb_version.specs.Version.{TableView, VersionView, all_tables, tables_of_level};
ghost use Rattle.pb_version.specs.Edited.{comes_before, placed, edited};
ghost use Rattle.pb_version.specs.Rules.{are_all_apart};
ghost use Rattle.pb_version.specs.Meaning.{layer_of_table};
ghost use Rattle.pb_version.specs.Flush.{flush_edit};
ghost use Rattle.pb_version.specs.InTurn.{tables_say, levels_say};
ghost use Rattle.pb_version.specs.Above.{AddsAbove, ComesLater};

/// The tables of a version say of a key what those of level 0 say, or else those of level 1, and so on.
pub fn levels_say_in_turn()
    ensures { (v : VersionView) (layers : ℕ → KeyLayer) (key : List ℕ) → tables_say layers (all_tables v) key ≡ levels_say layers v.levels key }
{}

/// Of the tables of a level from 1 on, whose bounds don't overlap, the one whose bounds hold the key decides alone, and none
/// says anything where none holds it; so their order doesn't matter, nor where one more is put among them.
pub fn tables_apart_say_alone()
    ensures decides { (layers : ℕ → KeyLayer) (level : ℕ) (tables : List TableView) (t : TableView) (key : List ℕ) → 1 ≤ level → are_all_apart level tables ≡ true → Contains tables t → holds_key t.view.bounds key ≡ true → tables_say layers tables key ≡ verdict (layer_of_table layers t) key }
    ensures silent { (layers : ℕ → KeyLayer) (tables : List TableView) (key : List ℕ) → All (λ t. holds_key t.view.bounds key ≡ false) tables → tables_say layers tables key ≡ None }
    ensures any_order { (layers : ℕ → KeyLayer) (level : ℕ) (tables others : List TableView) (key : List ℕ) → 1 ≤ level → are_all_apart level tables ≡ true → are_all_apart level others ≡ true → ((t : TableView) → Contains tables t ↔ Contains others t) → tables_say layers tables key ≡ tables_say layers others key }
    ensures any_place { (layers : ℕ → KeyLayer) (level : ℕ) (t : TableView) (tables : List TableView) (key : List ℕ) → All (λ u. overlap t.view.bounds u.view.bounds ≡ false) tables → tables_say layers (placed (comes_before level) t tables) key ≡ tables_say layers (t ∷ tables) key }
{}

/// A version with the same tables adds nothing.
pub fn same_tables_add_above()
    ensures { (old new : VersionView) → old.levels ≡ new.levels → AddsAbove old new }
{}

/// A flush adds its table above all that stand on level 0.
pub fn a_flush_adds_above()
    ensures { (v : VersionView) (count log number size : ℕ) (hull : KeySpan) → list_all (λ t. nat_lt t.rank number) (tables_of_level v 0) ≡ true → AddsAbove v (edited v (flush_edit count log number size hull)) }
{}

/// What is added above from one version to the next, and from that one to a third, is added above from the first to the third,
/// where no table that comes to the third had stood in the first, and those that come to level 0 are parts of what stood, or
/// newer than all that the first has there.
pub fn adding_above_joins()
    ensures { (first middle last : VersionView) → AddsAbove first middle → AddsAbove middle last → ComesLater first middle last → AddsAbove first last }
{}
