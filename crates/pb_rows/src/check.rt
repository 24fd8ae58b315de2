ghost use Rattle.std.specs.Prelude.{◌≡◌, ◌↔◌, IsTrue, All, MatchOption};
ghost use Rattle.pb_keys.specs.Key.{IsKey};
ghost use Rattle.pb_keys.specs.Span.{IsSpan};
ghost use Rattle.pb_rows.specs.Layer.{AreApart, Rise, IsFirstFall};

use super::Row;
use pb_keys::Span;

/// Whether the spans ascend, neither overlapping nor touching.
#[tactic(auto, using(pb_keys::proofs::OrderFacts::compares))]
pub(crate) fn are_apart(dels: &[Span]) -> bool
    ensures answer { IsTrue result ↔ AreApart dels.now }
    ensures spans { IsTrue result → All IsSpan dels.now }
{
    for (at, span) in dels.iter().enumerate() {
        let lo = span.lo();
        if at > 0 && lo <= dels[at - 1].hi() {
            return false;
        }
    }
    true
}

/// The first row that isn't above the one before.
pub(crate) fn first_fall(rows: &[Row]) -> Option<usize>
    ensures answer { MatchOption result (Rise rows.now) (IsFirstFall rows.now) }
    ensures keys { result ≡ None → All (λ row. IsKey row.key) rows.now }
{
    for (at, row) in rows.iter().enumerate() {
        let key = &row.key;
        // So the proof knows of each key that it is in form.
        let _bytes = key.as_bytes();
        if at > 0 {
            let before = &rows[at - 1];
            if *key <= before.key {
                return Some(at);
            }
        }
    }
    None
}
