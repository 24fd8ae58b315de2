//! What holds of all spans, as the contracts of functions that do nothing.

ghost use Rattle.std.specs.List.{list_any};
ghost use Rattle.std.specs.Prelude.{◌≡◌, ◌≤◌, ℕ, List, [], ◌∷◌, length, All, ◌&&◌, not};
ghost use Rattle.pb_keys.specs.Span.{KeySpan, IsSpan, holds_key};
ghost use Rattle.pb_span_cases.specs.Relation.{IsCase};
ghost use Rattle.pb_span_cases.specs.Remainder.{IsLine, case_of, remains};
ghost use Rattle.pb_span_cases.specs.declared.table.Case.{Case};

use crate::relations::Rel;
use crate::table::{CASES, Part};

/// Every two spans meet exactly one line of the table.
pub fn exactly_one()
    ensures relation { (a b : KeySpan) → IsSpan a → IsSpan b
        → (rel : Rel) × IsCase rel a b × ((other : Rel) → IsCase other a b → other ≡ rel) }
    ensures line { (a b : KeySpan) → IsSpan a → IsSpan b
        → (line : Case) × IsLine line × IsCase line.rel a b × ((other : Case) → IsLine other → IsCase other.rel a b → other ≡ line) }
{}

/// The lines of the table: docs/FORMATS.md, "Thirteen relations of two spans".
pub fn the_table()
    ensures { CASES.lines
        ≡ case_of Rel.Before Part.Whole Part.Nothing
        ∷ case_of Rel.Meets Part.Whole Part.Nothing
        ∷ case_of Rel.After Part.Whole Part.Nothing
        ∷ case_of Rel.MetBy Part.Whole Part.Nothing
        ∷ case_of Rel.Equal Part.Nothing Part.Nothing
        ∷ case_of Rel.Starts Part.Nothing Part.Nothing
        ∷ case_of Rel.During Part.Nothing Part.Nothing
        ∷ case_of Rel.Finishes Part.Nothing Part.Nothing
        ∷ case_of Rel.StartedBy Part.Nothing Part.CutToHi
        ∷ case_of Rel.FinishedBy Part.LoToCut Part.Nothing
        ∷ case_of Rel.Overlaps Part.LoToCut Part.Nothing
        ∷ case_of Rel.OverlappedBy Part.Nothing Part.CutToHi
        ∷ case_of Rel.Contains Part.LoToCut Part.CutToHi
        ∷ [] }
{}

/// What remains of a table beside a cut holds the keys of the table that the cut doesn't, in at most two parts.
pub fn remains_hold()
    ensures keys { (table cut : KeySpan) (key : List ℕ) → list_any (λ part. holds_key part key) (remains table cut) ≡ (holds_key table key && not (holds_key cut key)) }
    ensures in_form { (table cut : KeySpan) → IsSpan table → IsSpan cut → All IsSpan (remains table cut) }
    ensures at_most_two { (table cut : KeySpan) → length (remains table cut) ≤ 2 }
{}
