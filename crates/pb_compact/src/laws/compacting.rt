//! Laws of what a compaction chooses, of how that fits a version, and of the version after it.
ghost use Rattle.std.specs.Prelude.{◌≡◌, ◌<◌, ◌+◌, ℕ, List, All, length, nat_le, if◌then◌else◌, false, Some, None};
ghost use Rattle.pb_keys.specs.Span.{KeySpan};
ghost use Rattle.pb_rows.specs.Layer.{KeyLayer};
ghost use Rattle.pb_version.specs.Version.{VersionView, all_tables, tables_of_level};
ghost use Rattle.pb_version.specs.Above.{AddsAbove};
ghost use Rattle.pb_version.specs.Meaning.{map_of};
ghost use Rattle.pb_version.specs.Rules.{first_broken, has_number};
ghost use Rattle.pb_version.specs.State.{IsVersion};
ghost use Rattle.pb_compact.specs.Chosen.{Chosen, Fits, StandIn, chosen_of};
ghost use Rattle.pb_compact.specs.Compacted.{CompactionView, compacted, compaction_edit, freed, judged, output_hulls};
ghost use Rattle.pb_compact.specs.Compacted.{AreInPlace, HoldsMerged, LieWithinInputs, MayInstall};

use pb_version::Broken;

/// What is chosen of a version fits it, and is judged well there, wherever within the inputs' bounds the outputs lie.
pub fn what_is_chosen_fits()
    ensures fits { (v : VersionView) (level : ℕ) (span : KeySpan) → AreInPlace v → Fits v (chosen_of v level span) }
    ensures judged { (v : VersionView) (level : ℕ) (span : KeySpan) (hulls : List KeySpan) → AreInPlace v
        → LieWithinInputs (chosen_of v level span) hulls → judged v (chosen_of v level span) hulls ≡ None }
{}

/// What fits a version fits each to which commands have added above, as long as the inputs stand there.
pub fn adding_above_keeps_it_fit()
    ensures { (old new : VersionView) (chosen : Chosen) → Fits old chosen → AddsAbove old new → StandIn new chosen → Fits new chosen }
{}

/// The version after a compaction means the map that it meant before.
pub fn compacted_keeps_the_map()
    ensures { (v : VersionView) (c : CompactionView) (layers : ℕ → KeyLayer) → AreInPlace v → c.chosen.level + 1 < length v.levels
        → Fits v c.chosen → judged v c.chosen (output_hulls c) ≡ None → HoldsMerged layers c
        → map_of (compacted v c) layers ≡ map_of v layers }
{}

/// No table of the version afterwards, on any level, has the number of an input.
pub fn no_input_is_left()
    ensures { (v : VersionView) (c : CompactionView) → AreInPlace v → Fits v c.chosen → MayInstall v c → (level : ℕ)
        → All (λ input. has_number (tables_of_level (compacted v c) level) input.1.number ≡ false) c.chosen.inputs }
{}

/// The edit breaks no rule but V9, and that one exactly where more than 4,096 tables stand then.
pub fn a_compaction_breaks_no_rule()
    ensures { (v : VersionView) (c : CompactionView) (layers : ℕ → KeyLayer) → IsVersion v → Fits v c.chosen
        → judged v c.chosen (output_hulls c) ≡ None → c.freed ≡ freed v c.chosen → HoldsMerged layers c → MayInstall v c
        → first_broken v (compaction_edit c) ≡ (if nat_le (length (all_tables (compacted v c))) 4096 then None else Some Broken.V9) }
{}
