//! What holds of every excise. Each function does nothing: its contract is a law of the definitions.
ghost use Rattle.std.specs.Prelude.{◌≡◌, ◌≤◌, ℕ, [], ◌∷◌, All, Contains, length, nat_le, if◌then◌else◌, Some, None};
ghost use Rattle.pb_edit.specs.Edit.{VersionEdit};
ghost use Rattle.pb_keys.specs.Map.{without};
ghost use Rattle.pb_keys.specs.Span.{KeySpan, IsSpan, span_of};
ghost use Rattle.pb_rows.specs.Layer.{KeyLayer};
ghost use Rattle.pb_version.specs.Version.{VersionView, all_tables};
ghost use Rattle.pb_version.specs.Meaning.{map_of};
ghost use Rattle.pb_version.specs.Rules.{first_broken};
ghost use Rattle.pb_version.specs.State.{IsVersion};
ghost use Rattle.pb_version.specs.Stored.{stored_in};
ghost use Rattle.pb_version.specs.Above.{AddsAbove};
ghost use Rattle.pb_excise.specs.Excised.{excised, ShowsWhatStood};
ghost use Rattle.pb_excise.specs.Planned.{with_count, IsExcise};
ghost use Rattle.pb_excise.specs.Unused.{AreUnusedFrom};
ghost use Rattle.pb_excise.specs.Allowed.{MayExcise, BreaksNoRule};
ghost use Rattle.pb_excise.specs.Examples.{a, b, c, d, e, z, above, aa, bb, cc, dz, whole, part, backing, store, flushed};

use pb_version::Broken;

/// The map of what is left is the map without the span, whatever the backings stand for.
pub fn excised_map()
    ensures { (v : VersionView) (cut : KeySpan) (first : ℕ) (layers : ℕ → KeyLayer) → map_of (excised v cut first) layers ≡ without (map_of v layers) cut }
{}

/// Nothing new has bytes behind what is left: each number stood, with its size, and each table shows what a table showed that
/// stood, within its limits where that one keeps its own.
pub fn nothing_new_is_stored()
    ensures stored { (v : VersionView) (cut : KeySpan) (first : ℕ) → All (Contains (stored_in v)) (stored_in (excised v cut first)) }
    ensures tables { (v : VersionView) (cut : KeySpan) (first : ℕ) → All (ShowsWhatStood (all_tables v)) (all_tables (excised v cut first)) }
{}

/// What is left adds nothing above a running compaction's inputs: each table stood on its level, or is a part of one that went
/// from there, with its rank and within its bounds.
pub fn an_excise_adds_above()
    ensures { (v : VersionView) (cut : KeySpan) (first : ℕ) → AreUnusedFrom v first → AddsAbove v (excised v cut first) }
{}

/// Numbers that a version hasn't reserved yet are in no use.
pub fn unreserved_numbers_are_unused()
    ensures { (v : VersionView) (first : ℕ) → IsVersion v → v.five.next ≤ first → AreUnusedFrom v first }
{}

/// The edit of an excise breaks no rule of a version that had its first edit, with any count that doesn't fall, where the numbers
/// of the parts are reserved and in no use and at most 4,096 tables stand then.
pub fn breaks_no_rule()
    ensures { (v : VersionView) (cut : KeySpan) (first : ℕ) (edit : VersionEdit) → IsVersion v → IsSpan cut → IsExcise v cut first edit → BreaksNoRule v cut first edit }
{}

/// However many tables stand then, it breaks no rule but V9, and that one exactly where they are more than 4,096.
pub fn too_many_alone()
    ensures { (v : VersionView) (cut : KeySpan) (first accepted : ℕ) (edit : VersionEdit) → IsVersion v → IsSpan cut → IsExcise v cut first edit → MayExcise v cut first accepted → first_broken v (with_count accepted edit) ≡ (if nat_le (length (all_tables (excised v cut first))) 4096 then None else Some Broken.V9) }
{}

/// Excises computed: of a span inside a table, of all of it, beside it, and of its front; one after another; and of several
/// tables, on one level and on two.
pub fn excises()
    ensures inside { excised flushed (span_of b d) 6 ≡ store (part 6 4 a b ∷ part 7 4 d (above e) ∷ []) [] [] (backing 4 ∷ []) }
    ensures all { excised flushed (span_of a (above e)) 6 ≡ store [] [] [] [] }
    ensures beside { excised flushed (span_of (above e) z) 6 ≡ flushed }
    ensures front { excised flushed (span_of a c) 6 ≡ store (part 6 4 c (above e) ∷ []) [] [] (backing 4 ∷ []) }
    ensures again { excised (excised flushed (span_of b d) 6) (span_of aa b) 8 ≡ store (part 8 4 a aa ∷ part 7 4 d (above e) ∷ []) [] [] (backing 4 ∷ []) }
    ensures once_more { excised (store (part 8 4 a aa ∷ part 7 4 d (above e) ∷ []) [] [] (backing 4 ∷ [])) (span_of d dz) 9 ≡ store (part 8 4 a aa ∷ part 9 4 dz (above e) ∷ []) [] [] (backing 4 ∷ []) }
    ensures two { excised (store (whole 6 b (above c) ∷ whole 4 a (above d) ∷ []) [] [] []) (span_of bb cc) 8 ≡ store (part 8 6 b bb ∷ part 9 4 a bb ∷ part 10 4 cc (above d) ∷ []) [] [] (backing 4 ∷ backing 6 ∷ []) }
    ensures levels { excised (store [] (whole 8 a (above c) ∷ []) (whole 4 b (above e) ∷ []) []) (span_of b c) 10 ≡ store [] (part 10 8 a b ∷ part 11 8 c (above c) ∷ []) (part 12 4 c (above e) ∷ []) (backing 4 ∷ backing 8 ∷ []) }
{}
