//! Of several hulls the first two that overlap.
ghost use Rattle.std.specs.Prelude.{◌≡◌, ◌↔◌, ℕ, ◌<◌, ◌≤◌, ◌⊎◌, true, None, IfSome};
ghost use Rattle.std.specs.List.{position};
ghost use Rattle.pb_keys.specs.Span.{overlap};
ghost use Rattle.pb_ingest.specs.Pairs.{first_pair, OverlapAt};

use pb_keys::Span;

/// The places of two hulls that overlap: the least that has such a one behind it, and the least of those. Spans that touch
/// don't overlap.
pub fn first_overlap(hulls: &[Span]) -> Option<(usize, usize)>
    ensures exact { result ≡ first_pair hulls.now }
    ensures found { IfSome result (λ pair. OverlapAt hulls.now pair.0 pair.1) }
    ensures least { IfSome result (λ pair. (i j : ℕ) → OverlapAt hulls.now i j → (pair.0 < i) ⊎ ((pair.0 ≡ i) × (pair.1 ≤ j))) }
    ensures none { result ≡ None ↔ ((i j : ℕ) → ¬ (OverlapAt hulls.now i j)) }
{
    pair_of(hulls)
}

fn pair_of(hulls: &[Span]) -> Option<(usize, usize)>
    ensures { result ≡ first_pair hulls.now }
{
    for (at, hull) in hulls.iter().enumerate() {
        if let Some(behind) = first_met(hull, &hulls[at + 1..]) {
            return Some((at, at + 1 + behind));
        }
    }
    None
}

/// The place of the first of these that the hull overlaps.
fn first_met(hull: &Span, others: &[Span]) -> Option<usize>
    ensures { result ≡ position (overlap hull.now) others.now }
{
    others.iter().position(|other| hull.overlaps(other))
}
