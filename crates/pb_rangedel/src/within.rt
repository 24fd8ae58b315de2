ghost use Rattle.std.specs.Prelude.{◌≡◌, ℕ, List, ◌&&◌, All, IfOk, OnOk, ◌++◌};
ghost use Rattle.std.specs.Option.{option_to_list};
ghost use Rattle.pb_keys.specs.Span.{IsSpan, holds_key};
ghost use Rattle.pb_rows.specs.Viewed.{cut_to, part_within};
ghost use Rattle.pb_rows.specs.Layer.{AreApart};
ghost use Rattle.pb_rows.specs.Verdict.{is_covered};

use pb_keys::Span;
use pb_span_cases::{Rel, relation};
use std::alloc::{AllocError, Global};

/// The parts of the spans within bounds, in one pass.
///
/// They hold what both a span and the bounds hold. Where the spans ascend, neither overlapping nor touching, so do these.
pub fn cut(alloc: Global, dels: &[Span], bounds: &Span) -> Result<Vec<Span>, AllocError>
    ensures exact { IfOk result (λ spans. spans.items ≡ cut_to bounds.now dels.now) }
    ensures covered { IfOk result (λ spans. (key : List ℕ) → is_covered spans.items key ≡ (holds_key bounds.now key && is_covered dels.now key)) }
    ensures in_form { IfOk result (λ spans. All IsSpan spans.items) }
    ensures apart { AreApart dels.now → IfOk result (λ spans. AreApart spans.items) }
{
    let mut out = Vec::new(alloc);
    for span in dels {
        add_part(alloc, &mut out, span, bounds)?;
    }
    Ok(out)
}

/// Adds the part of a span within bounds, if there is one.
fn add_part(
    alloc: Global,
    out: &mut Vec<Span>,
    span: &Span,
    bounds: &Span,
) -> Result<(), AllocError>
    ensures added { OnOk result (out.new.items ≡ out.old.items ++ part_within bounds.now span.now) }
    ensures in_form { IsSpan span.now × IsSpan bounds.now }
{
    let part = match relation(span, bounds) {
        Rel::Before | Rel::Meets | Rel::After | Rel::MetBy => return Ok(()),
        Rel::Equal | Rel::Starts | Rel::During | Rel::Finishes => span.copy(alloc)?,
        Rel::StartedBy | Rel::FinishedBy | Rel::Contains => bounds.copy(alloc)?,
        Rel::Overlaps => Span::between(alloc, bounds.lo(), span.hi())?,
        Rel::OverlappedBy => Span::between(alloc, span.lo(), bounds.hi())?,
    };
    out.push(part)?;
    Ok(())
}
