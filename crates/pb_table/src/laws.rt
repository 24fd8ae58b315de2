//! What holds of all tables, as contracts of functions that do nothing.

ghost use Rattle.std.specs.Prelude.{◌≡◌, ℕ, ◌+◌, ◌*◌, ◌≤◌, List, length, slice_index};
ghost use Rattle.pb_rows.specs.Layer.{KeyLayer};
ghost use Rattle.pb_table.specs.Spelling.{IsFormat, new_table_format};
ghost use Rattle.pb_table.specs.Spells.{Spells};

use super::table::{FORMAT_1, NEW_TABLE_FORMAT};

/// Bytes spell at most one layer.
pub fn one_layer()
    ensures { (bytes : List ℕ) (a b : KeyLayer) → Spells bytes a → Spells bytes b → a ≡ b }
{}

/// The constants of the code are the numbers of the definitions.
pub fn formats_are_numbered()
    ensures first { FORMAT_1 ≡ 1 }
    ensures new { NEW_TABLE_FORMAT ≡ new_table_format }
    ensures known { IsFormat new_table_format }
{}

/// A table is longer than its spans and rows are many, and one of format 1 is no longer than they could be at their longest.
pub fn size_is_bounded()
    ensures least { (bytes : List ℕ) (layer : KeyLayer) → Spells bytes layer
        → 3 + 4 * length layer.dels + 3 * length layer.rows ≤ length bytes }
    ensures most { (bytes : List ℕ) (layer : KeyLayer) → Spells bytes layer → slice_index bytes 0 ≡ 1
        → length bytes ≤ 21 + 2070 * length layer.dels + 66581 * length layer.rows }
{}
