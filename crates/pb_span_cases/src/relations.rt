ghost use Rattle.std.specs.Prelude.{◌≡◌};
ghost use Rattle.std.specs.declared.cmp.Ordering.TheVariants.{Greater};
ghost use Rattle.pb_keys.specs.Span.{IsSpan};
ghost use Rattle.pb_span_cases.specs.Relation.{IsCase};
ghost use Rattle.pb_span_cases.specs.Signs.{signs_of};

use pb_keys::Span;
use std::cmp::Ordering;

/// How a span `a` lies to a span `b`, by their ends (docs/FORMATS.md, "Thirteen relations of two spans").
#[derive(Clone, Copy, Debug, PartialEq, Eq)]
pub enum Rel {
    Before,
    Meets,
    After,
    MetBy,
    Equal,
    Starts,
    During,
    Finishes,
    StartedBy,
    FinishedBy,
    Overlaps,
    OverlappedBy,
    Contains,
}

/// The relation of two spans: the one line of the table that their ends meet.
pub fn relation(a: &Span, b: &Span) -> Rel
    ensures holds { IsCase result a.now b.now }
    ensures only { (other : Rel) → IsCase other a.now b.now → other ≡ result }
    ensures in_form { IsSpan a.now × IsSpan b.now }
{
    match a.hi().cmp(&b.lo()) {
        Ordering::Less => return Rel::Before,
        Ordering::Equal => return Rel::Meets,
        Ordering::Greater => {}
    }
    match b.hi().cmp(&a.lo()) {
        Ordering::Less => return Rel::After,
        Ordering::Equal => return Rel::MetBy,
        Ordering::Greater => {}
    }
    shared(a.lo().cmp(&b.lo()), a.hi().cmp(&b.hi()))
}

// The relation of spans that share a prefix, by the order of their starts and of their ends.
fn shared(starts: Ordering, ends: Ordering) -> Rel
    ensures { signs_of result ≡ record { front = Greater; back = Greater; starts = starts; ends = ends } }
{
    match (starts, ends) {
        (Ordering::Less, Ordering::Less) => Rel::Overlaps,
        (Ordering::Less, Ordering::Equal) => Rel::FinishedBy,
        (Ordering::Less, Ordering::Greater) => Rel::Contains,
        (Ordering::Equal, Ordering::Less) => Rel::Starts,
        (Ordering::Equal, Ordering::Equal) => Rel::Equal,
        (Ordering::Equal, Ordering::Greater) => Rel::StartedBy,
        (Ordering::Greater, Ordering::Less) => Rel::During,
        (Ordering::Greater, Ordering::Equal) => Rel::Finishes,
        (Ordering::Greater, Ordering::Greater) => Rel::OverlappedBy,
    }
}
